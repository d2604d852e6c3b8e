//! The text of terms by their codes. No term is made of what a code holds as it is.
ghost use Rattle.std.specs.Prelude.{◌≡◌, ◌≤◌, ◌++◌, length, IfOk, OnOk};
ghost use Rattle.ca_order.specs.CodesView.{terms_of, tree_of};
ghost use Rattle.ca_order.specs.Leaves.{tree_of_leaf};
ghost use Rattle.ca_text.specs.Text.{text_of};
ghost use Rattle.ca_text.specs.Written.{BeginsWith};
ghost use Rattle.ca_cmd.specs.Coded.{PutsFirst, PutsTail, PutsElements};

use ca_order::{Codes, Leaf, Part};
use ca_text::{print_term, put, put_atom, put_binary, put_integer};
use std::alloc::AllocError;

// Appends the text of the first term, and gives the codes behind it.
#[cycle(coded)]
#[tactic(auto, using(ca_text::proofs::Fronts::begins_more))]
pub(crate) fn put_first<'a>(codes: Codes<'a>, into: &mut Vec<u8>) -> Result<Codes<'a>, AllocError>
    requires { 1 ≤ length (terms_of codes) }
    ensures ok { IfOk result (λ rest. PutsFirst (terms_of codes.entry) (terms_of rest) into.old.items into.new.items) }
    ensures front { BeginsWith into.new.items into.old.items }
{
    if let Some((leaf, behind)) = codes.leaf() {
        put_leaf(leaf, into)?;
        return Ok(behind);
    }
    if let Some((count, inside)) = codes.open_tuple() {
        put(b"{", into)?;
        let behind = put_elements(count, inside, into)?;
        put(b"}", into)?;
        return Ok(behind);
    }
    if let Some(inside) = codes.open_cell() {
        put(b"[", into)?;
        let behind = put_first(inside, into)?;
        return put_tail(behind, into);
    }
    let (part, behind) = codes.split();
    put_part(part, into)?;
    Ok(behind)
}

fn put_leaf(leaf: Leaf<'_>, into: &mut Vec<u8>) -> Result<(), AllocError>
    ensures ok { OnOk result (into.new.items ≡ into.old.items ++ text_of (tree_of_leaf leaf.entry)) }
    ensures front { BeginsWith into.new.items into.old.items }
{
    match leaf {
        Leaf::Integer(value) => put_integer(value, into),
        Leaf::Text(text) => put_atom(text, into),
        Leaf::Nil => put(b"[]", into),
        Leaf::Bytes(bytes) => put_binary(bytes, into),
    }
}

// A text or bytes that hold a zero byte stand otherwise in their code, so they are made a term.
fn put_part(part: Part<'_>, into: &mut Vec<u8>) -> Result<(), AllocError>
    ensures ok { OnOk result (into.new.items ≡ into.old.items ++ text_of (tree_of part.entry)) }
    ensures front { BeginsWith into.new.items into.old.items }
{
    let term = part.term(*into.allocator())?;
    print_term(&term, into)
}

// The first so many terms with commas between them, and the codes behind them.
#[cycle(coded)]
#[tactic(auto, using(ca_text::proofs::Fronts::begins_more))]
fn put_elements<'a>(
    count: usize,
    codes: Codes<'a>,
    into: &mut Vec<u8>,
) -> Result<Codes<'a>, AllocError>
    requires { count ≤ length (terms_of codes) }
    ensures ok { IfOk result (λ rest. PutsElements count (terms_of codes.entry) (terms_of rest) into.old.items into.new.items) }
    ensures front { BeginsWith into.new.items into.old.items }
{
    if count == 0 {
        return Ok(codes);
    }
    let mut left = put_first(codes, into)?;
    for _at in 1..count {
        put(b",", into)?;
        left = put_first(left, into)?;
    }
    Ok(left)
}

// What follows a list's head. It goes along the tail in a loop: a list may be longer than the stack is deep.
#[cycle(coded)]
#[tactic(auto, using(ca_text::proofs::Fronts::begins_more))]
fn put_tail<'a>(codes: Codes<'a>, into: &mut Vec<u8>) -> Result<Codes<'a>, AllocError>
    requires { 1 ≤ length (terms_of codes) }
    ensures ok { IfOk result (λ rest. PutsTail (terms_of codes.entry) (terms_of rest) into.old.items into.new.items) }
    ensures front { BeginsWith into.new.items into.old.items }
{
    let mut tail = codes;
    while let Some(inside) = tail.open_cell() {
        put(b",", into)?;
        tail = put_first(inside, into)?;
    }
    if let Some(behind) = tail.behind_nil() {
        put(b"]", into)?;
        return Ok(behind);
    }
    put(b"|", into)?;
    let behind = put_first(tail, into)?;
    put(b"]", into)?;
    Ok(behind)
}
