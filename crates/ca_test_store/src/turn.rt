//! The turns of a script.
ghost use Rattle.std.specs.Prelude.{◌≡◌, drop};
ghost use Rattle.ca_test_store.specs.Script.{next_turn};
ghost use Rattle.ca_test_store.specs.Inner.{refusal_at};

use crate::foreign::Foreign;
use crate::refusal::{Call, Refusal, refusal_at};
use std::alloc::Global;
use std::collections::VecDeque;
use std::marker::Model;

/// What one call finds in a script: the edits of others of which it learns before its own, how it is refused, if at all, and those of which
/// it learns behind its own.
#[derive(Drop)]
pub struct Turn {
    before: Vec<Foreign>,
    refusal: Option<Refusal>,
    after: Vec<Foreign>,
}

impl Model for Turn {
    ghost use Rattle.ca_test_store.specs.Script.{ScriptTurn};

    ghost Value = { ScriptTurn };

    ghost view = { λ t. record { before = t.before.items; refusal = t.refusal; after = t.after.items } };
}

impl Turn {
    pub fn new(before: Vec<Foreign>, refusal: Option<Refusal>, after: Vec<Foreign>) -> Turn
        ensures { result ≡ record { before = before.items; refusal = refusal; after = after.items } }
    {
        Turn {
            before,
            refusal,
            after,
        }
    }

    pub(crate) fn before(&self) -> &[Foreign]
        ensures { result.now ≡ self.now.before }
    {
        self.before.as_slice()
    }

    pub(crate) fn after(&self) -> &[Foreign]
        ensures { result.now ≡ self.now.after }
    {
        self.after.as_slice()
    }

    pub(crate) fn into_after(self) -> Vec<Foreign>
        ensures { result.items ≡ self.after }
    {
        self.after
    }

    // How a call of this kind is refused.
    pub(crate) fn refusal_at(&self, asked: Call) -> Option<Refusal>
        ensures { result ≡ refusal_at asked self.now.refusal }
    {
        refusal_at(asked, self.refusal)
    }
}

// Takes the turn of the next call.
pub(crate) fn take_turn(turns: &mut VecDeque<Turn>, alloc: Global) -> Turn
    ensures turn { result ≡ next_turn turns.old.items }
    ensures left { turns.new.items ≡ drop 1 turns.old.items }
{
    let Some(turn) = turns.pop_front() else {
        return Turn::new(Vec::new(alloc), None, Vec::new(alloc));
    };
    turn
}
