//! The terms of a load, read from their texts.
use ca_term::{Term, Terms};
use ca_text::read_term;
use std::alloc::Global;
use std::fmt::Write;

/// How many objects a table has, where nothing else is said.
pub const OBJECTS: u32 = 10_000;

/// The parts of a text between which a number stands: those of the key `<<"userN">>`.
pub const USER: &[&str] = &["<<\"user", "\">>"];

/// Those of the object `{<<"userN">>,1700000000,[{ip,<<"10.0.0.7">>}]}`, whose code has about 42 bytes.
pub const USUAL: &[&str] = &["{<<\"user", "\">>,1700000000,[{ip,<<\"10.0.0.7\">>}]}"];

/// The term of a text; `None` where memory lacks, or the text is no term's.
pub fn term_of(alloc: Global, text: &str) -> Option<Term> {
    match read_term(alloc, text.as_bytes()) {
        Ok((term, _length)) => Some(term),
        Err(_) => None,
    }
}

// The parts, with a number between each two.
fn text_of(alloc: Global, parts: &[&str], number: u32) -> Option<String> {
    let mut text = String::new(alloc);
    let mut is_first = true;
    for part in parts {
        if !is_first {
            write!(text, "{number}").ok()?;
        }
        write!(text, "{part}").ok()?;
        is_first = false;
    }
    Some(text)
}

/// The terms of these parts with each of so many numbers.
pub fn terms_of(alloc: Global, parts: &[&str], count: u32) -> Option<Terms> {
    let mut terms = Terms::new(alloc);
    for number in 0..count {
        let text = text_of(alloc, parts, number)?;
        terms.push(term_of(alloc, text.as_str())?).ok()?;
    }
    Some(terms)
}

/// A load: keys, and the object of each.
#[derive(Drop)]
pub struct Load {
    pub keys: Terms,
    pub objects: Terms,
}

/// So many objects of the usual kind, with their keys.
pub fn usual_load(alloc: Global, count: u32) -> Option<Load> {
    let keys = terms_of(alloc, USER, count)?;
    let objects = terms_of(alloc, USUAL, count)?;
    Some(Load { keys, objects })
}
