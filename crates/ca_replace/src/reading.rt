//! Calls that read what is within edges, of a pass that rests.
ghost use Rattle.std.specs.Prelude.{◌≤◌};
ghost use Rattle.ca_base.specs.Progress.{IsRefused};
ghost use Rattle.ca_model.specs.Answer.{IfBusy, IfDone, IfRefused, IsNeverDeep};
ghost use Rattle.ca_node.specs.TreePasses.{tree_of};
ghost use Rattle.ca_replace.specs.Leaving.{HasLeft};
ghost use Rattle.ca_replace.specs.Ranging.{IsAtWork, HasDoneOnce};
ghost use Rattle.ca_replace.specs.Resting.{IsAtRest, StaysAtRest};
ghost use Rattle.ca_rows.specs.Passes.{sizes, known};
ghost use Rattle.ca_replace.specs.Seen.{HasReadBy};
ghost use Rattle.ca_replace.specs.declared.adapting.Last.{Last};

use crate::calls::Order;
use crate::giving::keep_few;
use crate::ranging::{Look, read_or_refuse};
use crate::refusing::outcome_by;
use crate::tree::Tree;
use ca_model::Outcome;
use ca_node::TreePass;

/// Makes a call that reads what is within edges. The pass rests behind it.
pub(crate) fn read<L: Look>(
    tree: &Tree,
    pass: &mut TreePass,
    order: &Order<'_, L>,
    left: &mut L::Left,
) -> Outcome<L::Answer>
    requires resting { IsAtRest tree.now.space pass.old }
    requires may { L.may order.now.what.now (sizes tree.now.space) }
    requires budget { 1 ≤ order.now.budget }
    ensures frame { StaysAtRest tree.now.space pass.old pass.new }
    ensures done { IfDone result (λ answer. HasDoneOnce (L.tells order.now.what.now (sizes tree.now.space) answer left.new) pass.old pass.new) }
    ensures refused { IfRefused result (λ rise. IsRefused rise (tree_of pass.old) (tree_of pass.new)) }
    ensures never_deep { IsNeverDeep result }
    ensures busy { IfBusy result (λ spent. order.now.budget ≤ spent) }
    ensures told { (last : Last) → HasReadBy (L.needs order.now.what.now) order.now.budget tree.now pass.old pass.new last result }
{
    match read_or_refuse(tree, pass, order, left) {
        Ok(answer) => {
            leave(tree, pass);
            Outcome::Done(answer)
        }
        Err(why) => outcome_by(why),
    }
}

/// Unpins a pass at work; it keeps few rows then.
pub(crate) fn leave(tree: &Tree, pass: &mut TreePass)
    requires work { IsAtWork tree.now.space pass.old }
    ensures frame { StaysAtRest tree.now.space pass.old pass.new }
    ensures left { HasLeft (known pass.old) (known pass.new) pass.new.kept.rows }
{
    tree.space.unpin(pass);
    keep_few(tree, pass);
}
