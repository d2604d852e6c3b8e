//! A pass's own range ends: it is decided, or given up.
ghost use Rattle.std.specs.Prelude.{◌≡◌, ◌<◌, ◌≤◌, vec_len};
ghost use Rattle.ca_base.specs.Counting.{losses, HasMet};
ghost use Rattle.ca_base.specs.Crowded.{StaysCrowded};
ghost use Rattle.ca_base.specs.Readiness.{IsReady};
ghost use Rattle.ca_node.specs.OwnRanges.{IsKnownEnded};
ghost use Rattle.ca_node.specs.States.{IsAlone};
ghost use Rattle.ca_node.specs.Told.{IsKnown};
ghost use Rattle.ca_node.specs.TreePasses.{tree_of, IsOwner};
ghost use Rattle.ca_node.specs.TreeView.{Begun, Border, Marking, Quiet};
ghost use Rattle.ca_range.specs.Gathering.{HasLoadedRun, HasSettled, IsBetween, IsEnough, IsMarking};
ghost use Rattle.ca_range.specs.Lonely.{IsOverAlone};
ghost use Rattle.ca_range.specs.Snapping.{StaysPinned};
ghost use Rattle.ca_range.specs.Snapshots.{OnlyRanges};
ghost use Rattle.ca_rows.specs.Passes.{KeepsList, sizes, known};

use crate::own::{Gathered, Own};
use crate::sought::{Run, Sought};
use ca_base::retire_border;
use ca_node::{RangeState, TreePass, TreeSpace, abort_own, decide_own, load_own_status};
use std::marker::Brand;

/// Gives up a range of the pass for which it marked a base. Where another pass decided it, the run is left.
pub fn give_up(space: &TreeSpace, pass: &mut TreePass, own: Own)
    requires ready { IsReady space.now pass.old }
    requires number { pass.old.number ≡ (tree_of pass.old).number }
    requires marking { IsMarking (sizes space.now) (tree_of pass.old) own }
    ensures frame { StaysPinned space.now pass.old pass.new }
    ensures quiet { (tree_of pass.new).ranges.own ≡ Quiet }
    ensures steps { OnlyRanges (sizes space.now) (tree_of pass.old) (tree_of pass.new) }
    ensures unfinished { (tree_of pass.new).ranges.unfinished ≡ (tree_of pass.old).ranges.unfinished }
    ensures notes { ((tree_of pass.new).notes ≡ (tree_of pass.old).notes) × ((tree_of pass.new).ways ≡ (tree_of pass.old).ways) }
    ensures still { (losses (known pass.new) ≡ losses (known pass.old)) × ((tree_of pass.new).turns ≡ (tree_of pass.old).turns) }
    ensures met { HasMet 0 0 (known pass.old) (known pass.new) }
    ensures loads { (tree_of pass.new).loads ≡ (tree_of pass.old).loads }
    ensures crowded { StaysCrowded (known pass.old) (known pass.new) }
    ensures alone { IsAlone (sizes space.now) (tree_of pass.old)
        → IsOverAlone (vec_len pass.old.kept.rows) (vec_len pass.new.kept.rows) (tree_of pass.old) (tree_of pass.new) }
{
    abort_own::<Brand>(space, pass, own.number);
    retire_border(space, pass, own.border);
}

/// Decides a range of the pass with the base that was shown last, where no more bases are needed. Where another pass decided it, that one's run is taken.
pub(crate) fn decide_run<F: Fn(&[u8]) -> bool>(
    space: &TreeSpace,
    pass: &mut TreePass,
    from: &Gathered,
    sought: &Sought<'_, F>,
    whole: bool,
) -> Run
    requires ready { IsReady space.now pass.old }
    requires number { pass.old.number ≡ (tree_of pass.old).number }
    requires leaf { (sizes space.now).leaf ≤ 120 }
    requires enough { IsEnough F.Fn sought.now (sizes space.now) (tree_of pass.old) from.now whole }
    ensures frame { StaysPinned space.now pass.old pass.new }
    ensures quiet { (tree_of pass.new).ranges.own ≡ Quiet }
    ensures steps { OnlyRanges (sizes space.now) (tree_of pass.old) (tree_of pass.new) }
    ensures unfinished { (tree_of pass.new).ranges.unfinished ≡ (tree_of pass.old).ranges.unfinished }
    ensures still { (losses (known pass.new) ≡ losses (known pass.old)) × ((tree_of pass.new).turns ≡ (tree_of pass.old).turns) }
    ensures ended { HasSettled F.Fn sought.now (sizes space.now) result (known pass.old) (known pass.new) }
    ensures loads { (tree_of pass.new).loads ≡ (tree_of pass.old).loads }
    ensures alone { IsAlone (sizes space.now) (tree_of pass.old)
        → IsOverAlone (vec_len pass.old.kept.rows) (vec_len pass.new.kept.rows) (tree_of pass.old) (tree_of pass.new) }
{
    let last = from.left.base;
    if !decide_own::<Brand>(space, pass, from.own.number, last) {
        return take_run(space, pass, from.own, sought);
    }
    retire_border(space, pass, from.own.border);
    let chained = true;
    Run {
        last,
        chained,
        whole,
    }
}

// Takes the run of a range that another pass decided.
fn take_run<F: Fn(&[u8]) -> bool>(
    space: &TreeSpace,
    pass: &mut TreePass,
    own: Own,
    sought: &Sought<'_, F>,
) -> Run
    requires ready { IsReady space.now pass.old }
    requires number { pass.old.number ≡ (tree_of pass.old).number }
    requires sizes { ((sizes space.now).leaf ≤ 120) × (0 < (sizes space.now).rows) }
    requires between { IsBetween F.Fn sought.now (sizes space.now) (tree_of pass.old) own }
    requires known { IsKnown (sizes space.now) (tree_of pass.old) }
    requires over { IsKnownEnded (tree_of pass.old) own.number }
    ensures frame { StaysPinned space.now pass.old pass.new }
    ensures quiet { (tree_of pass.new).ranges.own ≡ Quiet }
    ensures steps { OnlyRanges (sizes space.now) (tree_of pass.old) (tree_of pass.new) }
    ensures unfinished { (tree_of pass.new).ranges.unfinished ≡ (tree_of pass.old).ranges.unfinished }
    ensures still { (losses (known pass.new) ≡ losses (known pass.old)) × ((tree_of pass.new).turns ≡ (tree_of pass.old).turns) }
    ensures ended { HasSettled F.Fn sought.now (sizes space.now) result (known pass.old) (known pass.new) }
    ensures loads { (tree_of pass.new).loads ≡ (tree_of pass.old).loads }
{
    let _sought = sought;
    let last = load_run(space, pass);
    retire_border(space, pass, own.border);
    Run {
        last,
        chained: true,
        whole: true,
    }
}

// The last base of the run of the pass's range, which another pass decided.
fn load_run(space: &TreeSpace, pass: &mut TreePass) -> u32
    requires owner { IsOwner space.now pass.old }
    requires marking { (begun : Begun) × (border : Border) × ((tree_of pass.old).ranges.own ≡ Marking begun border)
        × IsKnownEnded (tree_of pass.old) begun.number }
    ensures frame { KeepsList pass.old pass.new }
    ensures loaded { (begun : Begun) (border : Border) → (tree_of pass.old).ranges.own ≡ Marking begun border
        → HasLoadedRun begun border result (known pass.old) (known pass.new) }
{
    match load_own_status(space, pass) {
        RangeState::Decided(_, last) => last,
        RangeState::Idle(_) => unreachable!(),
        RangeState::Active(_) => unreachable!(),
    }
}
