//! What `update_counter` and `update_element` ask for.
ghost use Rattle.std.specs.Prelude.{◌≡◌, ◌≤◌, IfOk, OnErr, length, map};
ghost use Rattle.std.specs.Option.{option_map};
ghost use Rattle.ca_term.specs.Add.{addition_of};
ghost use Rattle.ca_term.specs.Object.{elements_of};
ghost use Rattle.ca_term.specs.Tree.{Integer};
ghost use Rattle.ca_term.specs.Updates.{integer_of};
ghost use Rattle.ca_ets.specs.Asked.{operations_in};
ghost use Rattle.ca_ets.specs.Command.{response_of};
ghost use Rattle.ca_ets.specs.Step.{reply_of};
ghost use Rattle.ca_ets.specs.Update.{AreSeveral, IsFilledList, Several, addition_in, additions_in, additions_of, element_of, operations_of};

use crate::command::Reply;
use ca_term::{Add, Kind, Term, Terms, int};
use std::alloc::{AllocError, Global};
use std::slice;

/// The operations of an `update_counter`: one alone, or a list of them.
#[derive(Drop)]
pub enum Operations {
    One(Add),
    Several(Vec<Add>),
}

impl Operations {
    /// The operations that the argument of `update_counter` asks for, or `None` where it is not of its form: an integer, which is added to
    /// the element behind the key, a tuple `{Pos,Incr}` or `{Pos,Incr,Threshold,SetValue}` of integers, or a list of such tuples.
    /// Only a list with an element takes memory. Source: the ets manual, `update_counter`.
    pub fn of(alloc: Global, keypos: u32, op: &Term) -> Result<Option<Operations>, AllocError>
        ensures asked { IfOk result (λ operations. option_map operations_in operations ≡ operations_of keypos op.now) }
        ensures lack { OnErr result (IsFilledList op.now) }
    {
        match op.kind() {
            Kind::Int(incr) => Ok(Some(Operations::One(Add {
                pos: i64::from(keypos) + 1,
                incr,
                cap: None,
            }))),
            Kind::Tuple(items) => match addition(items) {
                Some(add) => Ok(Some(Operations::One(add))),
                None => Ok(None),
            },
            _ => several(alloc, op),
        }
    }

    /// The operations, in order.
    pub fn as_slice(&self) -> &[Add]
        ensures { map addition_of result.now ≡ additions_of (operations_in self.now) }
    {
        match self {
            Operations::One(add) => slice::from_ref(add),
            Operations::Several(adds) => adds.as_slice(),
        }
    }
}

// The operations of a proper list.
fn several(alloc: Global, list: &Term) -> Result<Option<Operations>, AllocError>
    ensures asked { IfOk result (λ operations. option_map operations_in operations ≡ option_map Several (additions_in list.now)) }
    ensures lack { OnErr result (IsFilledList list.now) }
{
    let mut adds = Vec::new(alloc);
    let mut rest = list;
    while let Kind::Cons(head, tail) = rest.kind() {
        let Some(add) = addition(elements(head)) else {
            return Ok(None);
        };
        adds.push(add)?;
        rest = tail;
    }
    match rest.kind() {
        Kind::Nil => Ok(Some(Operations::Several(adds))),
        _ => Ok(None),
    }
}

// The elements of a tuple; any other term has none.
#[tactic(auto, using(crate::proofs::Objects::elements_is))]
pub(crate) fn elements(term: &Term) -> &[Term]
    ensures { result.now ≡ elements_of term.now }
{
    match term.kind() {
        Kind::Tuple(items) => items,
        _ => &[],
    }
}

// The operation of these elements.
fn addition(items: &[Term]) -> Option<Add>
    ensures { option_map addition_of result ≡ addition_in items.now }
{
    match items {
        [pos, incr] => Some(Add {
            pos: integer(pos)?,
            incr: integer(incr)?,
            cap: None,
        }),
        [pos, incr, threshold, value] => Some(Add {
            pos: integer(pos)?,
            incr: integer(incr)?,
            cap: Some((integer(threshold)?, integer(value)?)),
        }),
        _ => None,
    }
}

// The integer that a term is.
pub(crate) fn integer(term: &Term) -> Option<i64>
    ensures { result ≡ integer_of term.now }
{
    match term.kind() {
        Kind::Int(value) => Some(value),
        _ => None,
    }
}

/// The position and the value that the argument `{Pos,Value}` of `update_element` asks for, or `None` where it is not of its form or the position
/// is below 1 or the key's. Source: the ets manual, `update_element`.
pub fn element(keypos: u32, op: &Term) -> Option<(i64, &Term)>
    ensures { option_map (λ asked. (asked.0, asked.1.now)) result ≡ element_of keypos op.now }
{
    let [pos, value] = elements(op) else {
        return None;
    };
    let pos = integer(pos)?;
    if pos < 1 || pos == i64::from(keypos) {
        return None;
    }
    Some((pos, value))
}

/// The reply of an `update_counter` whose operations stored these values: the value of one operation alone, or the list of the values.
/// Only a list with a value takes memory. Source: the ets manual, `update_counter`.
pub fn reply_of(alloc: Global, operations: &Operations, values: &[i64]) -> Result<Reply, AllocError>
    ensures reply { IfOk result (λ reply. response_of reply ≡ reply_of (operations_in operations.now) values.now) }
    ensures lack { OnErr result (AreSeveral (operations_in operations.now) × (1 ≤ length values.now)) }
{
    match operations {
        Operations::One(_) => match values {
            [value, ..] => Ok(Reply::Value(int(*value))),
            [] => Ok(Reply::List(Terms::new(alloc))),
        },
        Operations::Several(_) => Ok(Reply::List(integers(alloc, values)?)),
    }
}

// The terms of these integers.
fn integers(alloc: Global, values: &[i64]) -> Result<Terms, AllocError>
    ensures terms { IfOk result (λ terms. terms.items ≡ map Integer values.now) }
    ensures lack { OnErr result (1 ≤ length values.now) }
{
    let mut terms = Terms::new(alloc);
    for value in values {
        if terms.push(int(*value)).is_err() {
            return Err(AllocError);
        }
    }
    Ok(terms)
}
