//! Objects are brought into the processor's cache before they are read.
ghost use Rattle.ca_node.specs.TreePasses.{tree_of};
ghost use Rattle.ca_replace.specs.Running.{IsOpenRun};
ghost use Rattle.ca_rows.specs.Passes.{IsReading, OnlyReads, sizes};

use crate::opened::OpenRun;
use ca_base::{count, item};
use ca_node::{TreePass, TreeSpace, load_word};

/// Loads a word of each object that is left in the base which is read. Object rows stand anywhere, and a processor that asks for many of them waits for all
/// at once, but for one after the other where each is copied before the next one is asked for.
pub(crate) fn warm(space: &TreeSpace, pass: &mut TreePass, run: &OpenRun)
    requires reading { IsReading space.now pass.old }
    requires opened { IsOpenRun (sizes space.now) (tree_of pass.old) run.now }
    ensures frame { OnlyReads pass.old pass.new }
{
    let left = run.left.min(120) as u32;
    let end = count(space, pass, run.base).min(run.next.saturating_add(left));
    for place in run.next..end {
        let row = item(space, pass, run.base, place);
        let _word = load_word(space, pass, row, 0);
    }
}
