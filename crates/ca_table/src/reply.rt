//! Replies of updates of counters, whose memory is found before the update.
ghost use Rattle.std.specs.Prelude.{◌≡◌, ◌≤◌, ℤ, Ok, [], List, IfOk, OnErr, length, map};
ghost use Rattle.ca_term.specs.Tree.{Tree, Row, Integer, elements};
ghost use Rattle.ca_term.specs.Updates.{counts};
ghost use Rattle.ca_order.specs.Patches.{IsTupleCode};
ghost use Rattle.ca_ets.specs.Asked.{operations_in};
ghost use Rattle.ca_ets.specs.Command.{response_of};
ghost use Rattle.ca_ets.specs.Step.{reply_of};
ghost use Rattle.ca_ets.specs.Update.{AreSeveral, additions_of};
ghost use Rattle.ca_table.specs.Room.{IsRoom};

use ca_ets::{Operations, Reply};
use ca_model::Code;
use ca_order::sums;
use ca_term::{Terms, int};
use std::alloc::{AllocError, Global};

// Room for the reply of an update of counters.
#[derive(Drop)]
pub(crate) enum Room {
    // One value alone needs none.
    One,
    // The values of several operations, and the list of them.
    Several { values: Vec<i64>, terms: Terms },
}

impl Room {
    // Room for the reply to these operations. Only that of a list takes memory.
    pub(crate) fn new(alloc: Global, operations: &Operations) -> Result<Room, AllocError>
        ensures room { IfOk result (λ room. IsRoom (operations_in operations.now) room) }
        ensures lack { OnErr result (AreSeveral (operations_in operations.now)) }
    {
        match operations {
            Operations::One(_) => Ok(Room::One),
            Operations::Several(adds) => {
                let values = vec![in alloc; 0_i64; adds.len()]?;
                let mut terms = Terms::new(alloc);
                let Ok(()) = terms.reserve(adds.len()) else {
                    return Err(AllocError);
                };
                Ok(Room::Several { values, terms })
            }
        }
    }

    // The reply to these operations, which passed on this object. It takes no memory.
    pub(crate) fn reply(self, object: &Code, keypos: u32, operations: &Operations) -> Reply
        requires room { IsRoom (operations_in operations.now) self }
        requires object { (row : Row) × IsTupleCode row object.now.items }
        ensures { (row : Row) (left : List Tree) (values : List ℤ) → IsTupleCode row object.now.items
            → counts keypos (elements row) (additions_of (operations_in operations.now)) ≡ Ok (left, values)
            → response_of result ≡ reply_of (operations_in operations.now) values }
    {
        let adds = operations.as_slice();
        match self {
            Room::One => {
                let mut values = [0_i64];
                let _passed = sums(object.as_slice(), keypos, adds, &mut values);
                Reply::Value(int(values[0]))
            }
            Room::Several { mut values, terms } => {
                let _passed = sums(object.as_slice(), keypos, adds, values.as_mut_slice());
                Reply::List(filled(terms, values.as_slice()))
            }
        }
    }
}

// The list with these integers, for which there is room.
fn filled(mut terms: Terms, values: &[i64]) -> Terms
    requires empty { terms.items ≡ [] }
    requires room { length values.now ≤ terms.spare }
    ensures { result.items ≡ map Integer values.now }
{
    for value in values {
        let Ok(()) = terms.push(int(*value)) else {
            unreachable!()
        };
    }
    terms
}
