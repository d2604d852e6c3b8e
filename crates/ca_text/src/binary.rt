//! The text of binaries.
ghost use Rattle.std.specs.Prelude.{◌≡◌, ◌++◌, ◌<◌, decimal, codes, flat_map, OnOk};
ghost use Rattle.std.specs.List.{list_all};
ghost use Rattle.ca_text.specs.Text.{binary_text, escaped_byte, is_bare, is_printable};
ghost use Rattle.ca_text.specs.Written.{BeginsWith};

use crate::writer::{put, put_number};
use std::alloc::AllocError;

fn is_shown(bytes: &[u8]) -> bool
    ensures { result ≡ list_all is_printable bytes.now }
{
    bytes.iter().all(|b| matches!(b, b' '..=b'~'))
}

#[tactic(auto, unfolding(crate::specs::Text::escaped_byte))]
fn put_shown_byte(b: u8, into: &mut Vec<u8>) -> Result<(), AllocError>
    ensures ok { OnOk result (into.new.items ≡ into.old.items ++ escaped_byte b) }
    ensures front { BeginsWith into.new.items into.old.items }
{
    if b == b'"' || b == b'\\' {
        return put(&[b'\\', b], into);
    }
    put(&[b], into)
}

fn is_bare(bytes: &[u8]) -> bool
    ensures { result ≡ list_all is_bare bytes.now }
{
    bytes.iter().all(|b| *b != b'"' && *b != b'\\')
}

// The bytes between double quotes: as they are where none of them wants a backslash.
#[tactic(auto, using(crate::proofs::Fronts::begins_more))]
fn put_shown(bytes: &[u8], into: &mut Vec<u8>) -> Result<(), AllocError>
    ensures ok { OnOk result (into.new.items ≡ into.old.items ++ flat_map escaped_byte bytes.now) }
    ensures front { BeginsWith into.new.items into.old.items }
{
    if is_bare(bytes) {
        return put(bytes, into);
    }
    put_escaped(bytes, into)
}

#[tactic(auto, using(crate::proofs::Fronts::begins_more))]
fn put_escaped(bytes: &[u8], into: &mut Vec<u8>) -> Result<(), AllocError>
    ensures ok { OnOk result (into.new.items ≡ into.old.items ++ flat_map escaped_byte bytes.now) }
    ensures front { BeginsWith into.new.items into.old.items }
{
    for b in bytes {
        put_shown_byte(*b, into)?;
    }
    Ok(())
}

#[tactic(auto, using(crate::proofs::Fronts::begins_more))]
fn put_numbers(bytes: &[u8], into: &mut Vec<u8>) -> Result<(), AllocError>
    ensures ok { OnOk result (into.new.items ≡ into.old.items ++ flat_map (λ n. codes "," ++ decimal n) bytes.now) }
    ensures front { BeginsWith into.new.items into.old.items }
{
    for b in bytes {
        put(b",", into)?;
        put_number(u64::from(*b), into)?;
    }
    Ok(())
}

/// Appends the text of a binary.
#[tactic(auto, unfolding(crate::specs::Text::binary_text))]
pub fn put_binary(bytes: &[u8], into: &mut Vec<u8>) -> Result<(), AllocError>
    ensures ok { OnOk result (into.new.items ≡ into.old.items ++ binary_text bytes.now) }
    ensures front { BeginsWith into.new.items into.old.items }
{
    let Some((first, others)) = bytes.split_first() else {
        return put(b"<<>>", into);
    };
    if is_shown(bytes) {
        put(b"<<\"", into)?;
        put_shown(bytes, into)?;
        return put(b"\">>", into);
    }
    put(b"<<", into)?;
    put_number(u64::from(*first), into)?;
    put_numbers(others, into)?;
    put(b">>", into)
}
