//! What follows from the definitions alone.
ghost use Rattle.std.specs.Prelude.{◌≡◌, ℕ, List, [], ◌∷◌, ◌↔◌, replicate};
ghost use Rattle.ca_term.specs.Tree.{Tree};
ghost use Rattle.ca_ets.specs.Command.{Command, Answer, Continuation, IsContinuation};
ghost use Rattle.ca_ets.specs.Explained.{Explained};
ghost use Rattle.ca_ets.specs.InOrder.{IsInOrder};
ghost use Rattle.ca_ets.specs.OrderedMap.{IsTable};
ghost use Rattle.ca_ets.specs.Step.{step};

use crate::command::{Cmd, Cont, Reply};

/// A run of one client is explained exactly where its commands were run in order.
pub fn one_client()
    ensures { (keypos : ℕ) (commands : List Command) (answers : List Answer) (table : List Tree) →
        Explained keypos (commands ∷ []) (answers ∷ []) table ↔ IsInOrder keypos commands answers table }
{}

/// No files at all, and nothing printed: the table is empty, and no other table explains it.
pub fn no_files()
    ensures { (keypos : ℕ) (table : List Tree) → Explained keypos [] [] table ↔ (table ≡ []) }
{}

/// Files without a command are explained by the empty table, and by no other.
pub fn no_commands()
    ensures { (keypos clients : ℕ) (table : List Tree) →
        Explained keypos (replicate clients []) (replicate clients []) table ↔ (table ≡ []) }
{}

/// The table that a run ends with is an ordered map of objects that fit.
pub fn tables_stay_ordered()
    ensures { (keypos : ℕ) (files : List (List Command)) (answers : List (List Answer)) (table : List Tree) →
        Explained keypos files answers table → IsTable keypos table }
{}

/// A step keeps an ordered map of objects that fit, and a continuation.
pub fn steps_keep()
    ensures { (keypos : ℕ) (map : List Tree) (continuation : Continuation) (command : Command) →
        IsTable keypos map → IsContinuation continuation →
        IsTable keypos (step keypos map continuation command).map × IsContinuation (step keypos map continuation command).continuation }
{}

/// Commands, replies and continuations may be handed to another thread.
pub fn commands_cross() {
    may_cross::<Cmd>();
    may_cross::<Reply>();
    may_cross::<Cont>();
}

fn may_cross<T: Send>() {}
