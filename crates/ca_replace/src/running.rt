//! Runs of bases are read: their objects from left to right, and the last one within an edge.
ghost use Rattle.std.specs.Prelude.{◌≡◌, ◌+◌, ◌<◌, ◌≤◌, ℕ, [], ◌∷◌, None, Some, cond, false, length, suc, true};
ghost use Rattle.ca_model.specs.Edges.{bound_of, last_object, objects_of, up_to, within};
ghost use Rattle.ca_model.specs.StoreMap.{IsStoreMap};
ghost use Rattle.ca_node.specs.TreePasses.{tree_of};
ghost use Rattle.ca_range.specs.Snapshots.{IsRemembered, bases_of};
ghost use Rattle.ca_replace.specs.Running.{HasRows, IsBaseAt, IsGathered, IsManyAt, IsNextThere, IsOpenRun, all_of, left_of, row_in};
ghost use Rattle.ca_rows.specs.Passes.{OnlyReads, IsReading, sizes};

use crate::looking::copy_at;
use crate::opened::{OpenRun, WIDTH, Window};
use crate::warming::warm;
use crate::windows::{add_row, new_window, row_at};
use ca_base::count;
use ca_model::{Code, Edge};
use ca_node::{TreePass, TreeSpace, load_word};
use ca_range::{Run, place_from, place_to};

/// Opens a run: what its bases have within both edges can be read then. Its bases are walked once.
pub(crate) fn open_run(
    space: &TreeSpace,
    pass: &mut TreePass,
    bases: Run,
    lo: Edge<'_>,
    cut: Edge<'_>,
    run: &mut OpenRun,
)
    requires reading { IsReading space.now pass.old }
    requires remembered { IsRemembered (sizes space.now) (tree_of pass.old) bases }
    requires ordered { IsStoreMap (sizes space.now).keypos (all_of bases (tree_of pass.old)) }
    ensures frame { OnlyReads pass.old pass.new }
    ensures opened { IsOpenRun (sizes space.now) (tree_of pass.old) run.new }
    ensures left { left_of (tree_of pass.old) run.new ≡ objects_of (within (bound_of lo.entry) (bound_of cut.entry) (all_of bases (tree_of pass.old))) }
{
    run.bases = bases;
    run.base = bases.last;
    run.at = 0;
    run.next = count(space, pass, bases.last);
    run.left = 0;
    run.window.walked = 0;
    let mut row = bases.last;
    while row != 0 {
        gather(space, pass, run, row, lo, cut);
        row = left_row(space, pass, bases, run.window.walked - 1, row);
    }
}

// Walks the next base of a run that is opened, which has this row.
fn gather(
    space: &TreeSpace,
    pass: &mut TreePass,
    run: &mut OpenRun,
    row: u32,
    lo: Edge<'_>,
    cut: Edge<'_>,
)
    requires reading { IsReading space.now pass.old }
    requires remembered { IsRemembered (sizes space.now) (tree_of pass.old) run.old.bases }
    requires ordered { IsStoreMap (sizes space.now).keypos (all_of run.old.bases (tree_of pass.old)) }
    requires gathered { IsGathered (bases_of run.old.bases (tree_of pass.old)) (bound_of lo) (bound_of cut) run.old }
    requires here { IsBaseAt (bases_of run.old.bases (tree_of pass.old)) run.old.window.walked row }
    ensures frame { OnlyReads pass.old pass.new }
    ensures bases { run.new.bases ≡ run.old.bases }
    ensures walked { run.new.window.walked ≡ run.old.window.walked + 1 }
    ensures gathered { IsGathered (bases_of run.old.bases (tree_of pass.old)) (bound_of lo.entry) (bound_of cut.entry) run.new }
{
    let many = count(space, pass, row);
    let start = place_from(space, pass, row, lo);
    let end = place_to(space, pass, row, cut);
    run.left += u64::from(end.saturating_sub(start));
    add_row(&mut run.window, row);
    if start >= many {
        return;
    }
    run.base = row;
    run.at = run.window.walked - 1;
    run.next = start;
}

/// Reads the next object of a run, if one is left; else `into` is empty.
pub(crate) fn found_next(
    space: &TreeSpace,
    pass: &mut TreePass,
    run: &mut OpenRun,
    into: &mut Code,
) -> bool
    requires reading { IsReading space.now pass.old }
    requires opened { IsOpenRun (sizes space.now) (tree_of pass.old) run.old }
    ensures frame { OnlyReads pass.old pass.new }
    ensures opened { IsOpenRun (sizes space.now) (tree_of pass.old) run.new }
    ensures found { result ≡ true → left_of (tree_of pass.old) run.old ≡ into.new.items ∷ left_of (tree_of pass.old) run.new }
    ensures none { result ≡ false → (left_of (tree_of pass.old) run.old ≡ []) × (left_of (tree_of pass.old) run.new ≡ []) × (into.new.items ≡ []) }
{
    if run.left == 0 {
        into.clear();
        return false;
    }
    settle(space, pass, run);
    copy_at(space, pass, run.base, run.next, into);
    run.next += 1;
    run.left -= 1;
    true
}

// Goes to the base that has the next object of a run, where one is left.
fn settle(space: &TreeSpace, pass: &mut TreePass, run: &mut OpenRun)
    requires reading { IsReading space.now pass.old }
    requires opened { IsOpenRun (sizes space.now) (tree_of pass.old) run.old }
    requires some { 0 < run.old.left }
    ensures frame { OnlyReads pass.old pass.new }
    ensures opened { IsOpenRun (sizes space.now) (tree_of pass.old) run.new }
    ensures same { left_of (tree_of pass.old) run.new ≡ left_of (tree_of pass.old) run.old }
    ensures left { run.new.left ≡ run.old.left }
    ensures there { IsNextThere (bases_of run.new.bases (tree_of pass.old)) run.new }
{
    let mut many = count(space, pass, run.base);
    while many <= run.next {
        go_right(space, pass, run, many);
        warm(space, pass, run);
        many = count(space, pass, run.base);
    }
}

// Goes to the next base of a run, where all of so many objects of the one that is read were read, and one is left.
fn go_right(space: &TreeSpace, pass: &mut TreePass, run: &mut OpenRun, many: u32)
    requires reading { IsReading space.now pass.old }
    requires opened { IsOpenRun (sizes space.now) (tree_of pass.old) run.old }
    requires some { 0 < run.old.left }
    requires many { IsManyAt (bases_of run.old.bases (tree_of pass.old)) run.old.at many }
    requires behind { many ≤ run.old.next }
    ensures frame { OnlyReads pass.old pass.new }
    ensures opened { IsOpenRun (sizes space.now) (tree_of pass.old) run.new }
    ensures same { left_of (tree_of pass.old) run.new ≡ left_of (tree_of pass.old) run.old }
    ensures left { run.new.left ≡ run.old.left }
    ensures nearer { run.new.at < run.old.at }
{
    let at = run.at - 1;
    reach(space, pass, &mut run.window, run.bases, at);
    run.base = row_at(&run.window, at);
    run.at = at;
    run.next -= many;
}

// Sees to it that the window of a run has this base: one that has only others is walked anew.
fn reach(space: &TreeSpace, pass: &mut TreePass, window: &mut Window, bases: Run, at: u32)
    requires reading { IsReading space.now pass.old }
    requires remembered { IsRemembered (sizes space.now) (tree_of pass.old) bases }
    requires walked { at < window.old.walked }
    requires inside { window.old.walked ≤ length (bases_of bases (tree_of pass.old)) }
    requires rows { HasRows (row_in (bases_of bases (tree_of pass.old))) window.old }
    ensures frame { OnlyReads pass.old pass.new }
    ensures walked { at < window.new.walked }
    ensures lately { window.new.walked ≤ at + 64 }
    ensures inside { window.new.walked ≤ length (bases_of bases (tree_of pass.old)) }
    ensures rows { HasRows (row_in (bases_of bases (tree_of pass.old))) window.new }
{
    if window.walked - at > WIDTH {
        *window = walked_to(space, pass, bases, at);
    }
}

// The window of a run that was walked up to this base.
fn walked_to(space: &TreeSpace, pass: &mut TreePass, bases: Run, at: u32) -> Window
    requires reading { IsReading space.now pass.old }
    requires remembered { IsRemembered (sizes space.now) (tree_of pass.old) bases }
    requires there { at < length (bases_of bases (tree_of pass.old)) }
    ensures frame { OnlyReads pass.old pass.new }
    ensures walked { result.walked ≡ at + 1 }
    ensures rows { HasRows (row_in (bases_of bases (tree_of pass.old))) result }
{
    let mut window = new_window();
    let mut row = bases.last;
    for k in 0..at {
        add_row(&mut window, row);
        row = left_row(space, pass, bases, k, row);
    }
    add_row(&mut window, row);
    window
}

// The row of the base on the left of that which is so many from the last one, and 0 where there is none.
fn left_row(space: &TreeSpace, pass: &mut TreePass, bases: Run, at: u32, row: u32) -> u32
    requires reading { IsReading space.now pass.old }
    requires remembered { IsRemembered (sizes space.now) (tree_of pass.old) bases }
    requires here { IsBaseAt (bases_of bases (tree_of pass.old)) at row }
    ensures frame { OnlyReads pass.old pass.new }
    ensures left { result ≡ row_in (bases_of bases (tree_of pass.old)) (at + 1) }
{
    if bases.chained {
        return load_word(space, pass, row, 5) as u32;
    }
    0
}

/// The last object within an upper edge that the bases of a run have, if one is; else `into` is empty.
pub(crate) fn last_within(
    space: &TreeSpace,
    pass: &mut TreePass,
    bases: Run,
    cut: Edge<'_>,
    into: &mut Code,
) -> bool
    requires reading { IsReading space.now pass.old }
    requires remembered { IsRemembered (sizes space.now) (tree_of pass.old) bases }
    ensures frame { OnlyReads pass.old pass.new }
    ensures last { last_object (up_to (bound_of cut.entry) (all_of bases (tree_of pass.old))) ≡ cond result (Some into.new.items) None }
    ensures emptied { result ≡ false → into.new.items ≡ [] }
{
    let mut row = bases.last;
    let mut at = 0;
    while row != 0 {
        let place = place_to(space, pass, row, cut);
        if place > 0 {
            copy_at(space, pass, row, place - 1, into);
            return true;
        }
        row = left_row(space, pass, bases, at, row);
        at += 1;
    }
    into.clear();
    false
}
