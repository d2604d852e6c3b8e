//! Parts and sizes of values. Source: the functions of the module erlang of these names.
ghost use Rattle.std.specs.Prelude.{◌≡◌, IfOk, MatchOption, false, pos};
ghost use Rattle.std.specs.Option.{option_map};
ghost use Rattle.ca_term.specs.Kind.{tree_of_kind};
ghost use Rattle.ca_term.specs.Tree.{Cons, Integer, Tuple, is_cell, row_of};
ghost use Rattle.ca_match.specs.Operators.{byte_size, counted, either_size, is_atom, is_binary, is_integer, is_list, is_tuple, list_length, tuple_size, word};
ghost use Rattle.ca_match.specs.ValueView.{counted_from, element_at, part_in, tree_of_value};

use crate::value::Value;
use ca_term::{Kind, Term, try_copy};
use std::alloc::{AllocError, Global};

// A part of a term: the head or the tail of a list cell, or an element of a tuple, counted from 1.
#[derive(Clone, Copy)]
pub(crate) enum Part {
    Head,
    Tail,
    Element(i64),
}

// A part of a value: it is lent where the value is.
pub(crate) fn part_of_value<'a>(
    alloc: Global,
    part: Part,
    value: Value<'a>,
) -> Result<Option<Value<'a>>, AllocError>
    ensures { IfOk result (λ found. option_map tree_of_value found ≡ part_in part (tree_of_value value.entry)) }
{
    match value {
        Value::Lent(term) => match part_of_term(part, term) {
            Some(found) => Ok(Some(Value::Lent(found))),
            None => Ok(None),
        },
        Value::Owned(term) => match part_of_term(part, &term) {
            Some(found) => match try_copy(alloc, found) {
                Ok(copy) => Ok(Some(Value::Owned(copy))),
                Err(_) => Err(AllocError),
            },
            None => Ok(None),
        },
        Value::Integer(_) | Value::Truth(_) => Ok(None),
    }
}

// A part of a term.
#[tactic(auto, using(crate::proofs::Pieces::element_in))]
fn part_of_term(part: Part, term: &Term) -> Option<&Term>
    ensures { option_map (λ found. found.now) result ≡ part_in part term.now }
{
    match (part, term.kind()) {
        (Part::Head, Kind::Cons(head, _)) => Some(head),
        (Part::Tail, Kind::Cons(_, tail)) => Some(tail),
        (Part::Element(n), Kind::Tuple(items)) => element(items, n),
        (Part::Head | Part::Tail, Kind::Tuple(_)) | (Part::Element(_), Kind::Cons(_, _)) => None,
        (_, Kind::Int(_) | Kind::Atom(_) | Kind::Nil | Kind::Bin(_)) => None,
    }
}

// An element, counted from 1.
fn element(items: &[Term], n: i64) -> Option<&Term>
    ensures { option_map (λ found. found.now) result ≡ element_at items.now n }
{
    if n < 1 {
        return None;
    }
    items.get(n as usize - 1)
}

/// The elements of a tuple; another term has none.
pub fn tuple_items(term: &Term) -> Option<&[Term]>
    ensures { MatchOption result (is_tuple term.now ≡ false) (λ items. term.now ≡ Tuple (row_of items.now)) }
{
    match term.kind() {
        Kind::Tuple(items) => Some(items),
        Kind::Int(_) | Kind::Atom(_) | Kind::Nil | Kind::Cons(_, _) | Kind::Bin(_) => None,
    }
}

/// The head and the tail of a list cell; another term has none.
pub fn cell_parts(term: &Term) -> Option<(&Term, &Term)>
    ensures { MatchOption result (is_cell term.now ≡ false) (λ cell. term.now ≡ Cons cell.0.now cell.1.now) }
{
    match term.kind() {
        Kind::Cons(head, tail) => Some((head, tail)),
        Kind::Int(_) | Kind::Atom(_) | Kind::Tuple(_) | Kind::Nil | Kind::Bin(_) => None,
    }
}

// How many elements a proper list has, where that is an integer of 64 bits. It goes along the tail in a loop.
pub(crate) fn list_length(value: &Value<'_>) -> Option<i64>
    ensures { option_map Integer result ≡ counted list_length (tree_of_value value.now) }
{
    match value.kind() {
        Kind::Nil => Some(0),
        Kind::Cons(_, tail) => length_behind(tail),
        Kind::Int(_) | Kind::Atom(_) | Kind::Tuple(_) | Kind::Bin(_) => None,
    }
}

// The length of a list with this tail behind its first head.
#[tactic(auto, using(crate::proofs::Pieces::one_more, crate::proofs::Pieces::too_many, crate::proofs::Pieces::no_more))]
fn length_behind(tail: &Term) -> Option<i64>
    ensures { option_map Integer result ≡ counted_from 1 (list_length tail.now) }
{
    let mut length: usize = 1;
    let mut rest = tail;
    while let Kind::Cons(_, tail) = rest.kind() {
        length = length.checked_add(1)?;
        rest = tail;
    }
    match rest.kind() {
        Kind::Nil => number(length),
        Kind::Int(_) | Kind::Atom(_) | Kind::Tuple(_) | Kind::Bin(_) => None,
        Kind::Cons(_, _) => unreachable!(),
    }
}

#[tactic(auto, using(crate::proofs::Pieces::tuple_sized))]
pub(crate) fn tuple_size(value: &Value<'_>) -> Option<i64>
    ensures { option_map Integer result ≡ counted tuple_size (tree_of_value value.now) }
{
    match value.kind() {
        Kind::Tuple(items) => number(items.len()),
        Kind::Int(_) | Kind::Atom(_) | Kind::Nil | Kind::Cons(_, _) | Kind::Bin(_) => None,
    }
}

pub(crate) fn byte_size(value: &Value<'_>) -> Option<i64>
    ensures { option_map Integer result ≡ counted byte_size (tree_of_value value.now) }
{
    match value.kind() {
        Kind::Bin(bytes) => number(bytes.len()),
        Kind::Int(_) | Kind::Atom(_) | Kind::Tuple(_) | Kind::Nil | Kind::Cons(_, _) => None,
    }
}

#[tactic(auto, using(crate::proofs::Pieces::either_sized))]
pub(crate) fn size(value: &Value<'_>) -> Option<i64>
    ensures { option_map Integer result ≡ counted either_size (tree_of_value value.now) }
{
    match value.kind() {
        Kind::Tuple(items) => number(items.len()),
        Kind::Bin(bytes) => number(bytes.len()),
        Kind::Int(_) | Kind::Atom(_) | Kind::Nil | Kind::Cons(_, _) => None,
    }
}

// A size as an integer of 64 bits.
#[tactic(auto, using(crate::proofs::Words::word_where_fits))]
fn number(size: usize) -> Option<i64>
    ensures { option_map Integer result ≡ word (pos size) }
{
    i64::try_from(size).ok()
}

pub(crate) fn is_atom(value: &Value<'_>) -> bool
    ensures { result ≡ is_atom (tree_of_value value.now) }
{
    matches!(value.kind(), Kind::Atom(_))
}

pub(crate) fn is_integer(value: &Value<'_>) -> bool
    ensures { result ≡ is_integer (tree_of_value value.now) }
{
    matches!(value.kind(), Kind::Int(_))
}

pub(crate) fn is_tuple(value: &Value<'_>) -> bool
    ensures { result ≡ is_tuple (tree_of_value value.now) }
{
    matches!(value.kind(), Kind::Tuple(_))
}

pub(crate) fn is_list(value: &Value<'_>) -> bool
    ensures { result ≡ is_list (tree_of_value value.now) }
{
    matches!(value.kind(), Kind::Nil | Kind::Cons(_, _))
}

pub(crate) fn is_binary(value: &Value<'_>) -> bool
    ensures { result ≡ is_binary (tree_of_value value.now) }
{
    matches!(value.kind(), Kind::Bin(_))
}
