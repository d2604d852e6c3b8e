//! What follows an update: the statistic of its new base, and what is due to it.
ghost use Rattle.std.specs.Prelude.{◌≡◌, ◌≢◌, ◌↔◌, ◌<◌, Err, IfErr, IsOk, IsTrue, slice_index};
ghost use Rattle.ca_adapt.specs.declared.adapted.Adapted.TheVariants.{Split as IsSplit};
ghost use Rattle.ca_base.specs.Finding.{IsReadable};
ghost use Rattle.ca_base.specs.Progress.{IsFurther};
ghost use Rattle.ca_node.specs.Told.{IsKnown};
ghost use Rattle.ca_node.specs.States.{IsAlone};
ghost use Rattle.ca_node.specs.TreeView.{Note};
ghost use Rattle.ca_replace.specs.Adapting.{HasAdapted, HasLookedAgain, HasLookedToJoin, HasSettled, IsCauseMet, IsMoved, IsNew, noted, MayAdapt};
ghost use Rattle.ca_replace.specs.Growing.{Grows};
ghost use Rattle.ca_replace.specs.Cutting.{HasCutDue};
ghost use Rattle.ca_replace.specs.declared.attempting.Halt.TheVariants.{Deep as IsDeep};
ghost use Rattle.ca_replace.specs.Attempting.{IsPaid, IsPaidBut, IsPaidTo, come_to};
ghost use Rattle.ca_replace.specs.Winning.{StaysNewest};
ghost use Rattle.ca_rows.specs.Told.{met_of};
ghost use Rattle.ca_rows.specs.Passes.{OnlyReads, IsReading, sizes, known};
ghost use Rattle.ca_node.specs.TreePasses.{tree_of};
ghost use Rattle.ca_base.specs.Readiness.{IsReady, StaysReady};

use crate::attempting::Halt;
use crate::tree::Tree;
use ca_adapt::{Adapted, Due, statistic_of, try_join, try_split};
use ca_base::{Exchange, Stop, statistic_word};
use ca_model::Spent;
use ca_node::{Cursor, Spot, TreePass, walk};

/// What a store keeps of its last update: the new base's statistic, and what was done about that base.
#[derive(Clone, Copy)]
pub struct Last {
    pub statistic: i32,
    pub adapted: Adapted,
}

/// What the attempts of a call keep: whether one lost an exchange of a link, and what the store keeps of its last update.
#[derive(Clone, Copy)]
pub(crate) struct Adapting {
    pub(crate) lost: bool,
    pub(crate) last: Last,
}

/// What a call's attempts hand on: what they keep, and what they spent.
#[derive(Clone, Copy)]
pub(crate) struct Course {
    pub(crate) adapting: Adapting,
    pub(crate) spent: Spent,
    /// The cursor with whose link the next attempt begins, while the pass is pinned as it was as that link was loaded; none: it begins at the root.
    pub(crate) again: Option<Cursor>,
    /// Whether an attempt met a mark since the pass was pinned.
    pub(crate) marked: bool,
    /// By how many turns the call may be lost.
    pub(crate) budget: u32,
}

/// A base that an update was to put in place: the update's key, and the base's row.
#[derive(Clone, Copy)]
pub(crate) struct NewBase<'a> {
    pub(crate) key: &'a [u8],
    pub(crate) row: u32,
}

/// The statistic of the base that an update puts in the place of this one, which the pass was shown.
pub(crate) fn next_statistic(tree: &Tree, pass: &mut TreePass, base: u32, lost: bool) -> i32
    requires reading { IsReading tree.now.space pass.old }
    requires readable { (note : Note) × IsReadable (sizes tree.now.space) (tree_of pass.old) base note }
    ensures frame { OnlyReads pass.old pass.new }
    ensures moved { (note : Note) → IsReadable (sizes tree.now.space) (tree_of pass.old) base note
        → IsMoved tree.now.tuning (slice_index note.its 1) lost result }
{
    let word = statistic_word(&tree.space, pass, base);
    tree.tuning.statistic_after(statistic_of(word), lost)
}

/// What an attempt comes to, by what became of its exchange of a base. Where that was won, the new base was shown last; then what is due to it by
/// its statistic is done. Where it was lost, that is kept.
pub(crate) fn settle(
    tree: &Tree,
    pass: &mut TreePass,
    placed: &NewBase<'_>,
    statistic: i32,
    tried: Result<(), Stop>,
    course: &mut Course,
) -> Result<(), Halt>
    requires may { MayAdapt tree.now.space pass.old }
    requires placed { IsOk tried → IsNew placed.now.row placed.now.key.now (met_of (known pass.old)) (tree_of pass.old) }
    ensures frame { StaysReady tree.now.space pass.old pass.new }
    ensures come { result ≡ come_to tried }
    ensures still { IfErr tried (λ _. pass.new ≡ pass.old) }
    ensures deep { result ≢ Err IsDeep }
    ensures further { IsFurther (tree_of pass.old) (tree_of pass.new) × IsKnown (sizes tree.now.space) (tree_of pass.new) }
    ensures met { IsOk tried → IsCauseMet course.new.adapting.last.adapted (met_of (known pass.new)) (tree_of pass.new) }
    ensures settled { HasSettled (sizes tree.now.space) tree.now.tuning statistic tried course.old.adapting course.new.adapting (known pass.old) (known pass.new) }
    ensures counted { IsPaidTo (come_to tried) course.old.spent course.new.spent (known pass.old) (known pass.new) }
    ensures again { course.new.again ≡ course.old.again }
    ensures grows { IsAlone (sizes tree.now.space) (tree_of pass.old) → Grows 1 2 1 (tree_of pass.old) (tree_of pass.new) }
    ensures won { IsAlone (sizes tree.now.space) (tree_of pass.old) → IsOk tried → StaysNewest (tree_of pass.old) (tree_of pass.new) }
    ensures cut { HasCutDue (sizes tree.now.space) (tree_of pass.old).cuts (tree_of pass.new) }
{
    match tried {
        Ok(()) => {
            let adapted = adapt(tree, pass, placed, statistic, &mut course.spent);
            course.adapting.last = Last { statistic, adapted };
        }
        Err(why) => note_stop(&mut course.adapting, why),
    }
    tried.map_err(Halt::Stopped)
}

/// Notes why a try came to nothing: whether an exchange of a link was lost.
pub(crate) fn note_stop(adapting: &mut Adapting, why: Stop)
    ensures { adapting.new ≡ noted why adapting.old }
{
    if matches!(why, Stop::Lost(Exchange::Link)) {
        adapting.lost = true;
    }
}

// Does what is due to a base that was just put in place, which has this statistic.
#[tactic(auto, using(crate::proofs::DueCauses::new_met, crate::proofs::Counted::paid_but))]
fn adapt(
    tree: &Tree,
    pass: &mut TreePass,
    placed: &NewBase<'_>,
    statistic: i32,
    spent: &mut Spent,
) -> Adapted
    requires may { MayAdapt tree.now.space pass.old }
    requires placed { IsNew placed.now.row placed.now.key.now (met_of (known pass.old)) (tree_of pass.old) }
    ensures frame { StaysReady tree.now.space pass.old pass.new }
    ensures further { IsFurther (tree_of pass.old) (tree_of pass.new) × IsKnown (sizes tree.now.space) (tree_of pass.new) }
    ensures met { IsCauseMet result (met_of (known pass.new)) (tree_of pass.new) }
    ensures adapted { HasAdapted (sizes tree.now.space) tree.now.tuning statistic result (tree_of pass.old) (tree_of pass.new) }
    ensures counted { IsPaidBut spent.old spent.new (known pass.old) (known pass.new) }
    ensures grows { IsAlone (sizes tree.now.space) (tree_of pass.old) → Grows 1 2 1 (tree_of pass.old) (tree_of pass.new) }
    ensures won { IsAlone (sizes tree.now.space) (tree_of pass.old) → StaysNewest (tree_of pass.old) (tree_of pass.new) }
    ensures cut { HasCutDue (sizes tree.now.space) (tree_of pass.old).cuts (tree_of pass.new) }
{
    match tree.tuning.due(statistic) {
        Due::Split => split_again(tree, pass, placed, spent),
        Due::Join => join_again(tree, pass, placed, spent),
        Due::Nothing => Adapted::Stay,
    }
}

// Walks to the key anew, and tries to split the base that it comes to, where that is the one which was just put in place.
fn split_again(tree: &Tree, pass: &mut TreePass, placed: &NewBase<'_>, spent: &mut Spent) -> Adapted
    requires ready { IsReady tree.now.space pass.old }
    requires placed { IsNew placed.now.row placed.now.key.now (met_of (known pass.old)) (tree_of pass.old) }
    ensures frame { StaysReady tree.now.space pass.old pass.new }
    ensures further { IsFurther (tree_of pass.old) (tree_of pass.new) × IsKnown (sizes tree.now.space) (tree_of pass.new) }
    ensures met { IsCauseMet result (met_of (known pass.new)) (tree_of pass.new) }
    ensures tried { HasLookedAgain (sizes tree.now.space) result (tree_of pass.old) (tree_of pass.new) }
    ensures counted { IsPaid spent.old spent.new (known pass.old) (known pass.new) }
    ensures grows { IsAlone (sizes tree.now.space) (tree_of pass.old) → Grows 1 2 1 (tree_of pass.old) (tree_of pass.new) }
    ensures won { IsAlone (sizes tree.now.space) (tree_of pass.old) → StaysNewest (tree_of pass.old) (tree_of pass.new) }
    ensures cut { HasCutDue (sizes tree.now.space) (tree_of pass.old).cuts (tree_of pass.new) }
{
    let space = &tree.space;
    let cursor = walk(space, pass, Spot::At(placed.key));
    if cursor.base != placed.row {
        return Adapted::Stay;
    }
    let adapted = try_split(space, pass, cursor, &tree.tuning, spent);
    if was_split(&adapted) {
        spent.passed = spent.passed.saturating_add(1);
    }
    adapted
}

// Walks to the key anew, and tries to join the base that it comes to with its sibling, where that base is the one which was just put in place.
fn join_again(tree: &Tree, pass: &mut TreePass, placed: &NewBase<'_>, spent: &mut Spent) -> Adapted
    requires may { MayAdapt tree.now.space pass.old }
    requires placed { IsNew placed.now.row placed.now.key.now (met_of (known pass.old)) (tree_of pass.old) }
    ensures frame { StaysReady tree.now.space pass.old pass.new }
    ensures further { IsFurther (tree_of pass.old) (tree_of pass.new) × IsKnown (sizes tree.now.space) (tree_of pass.new) }
    ensures met { IsCauseMet result (met_of (known pass.new)) (tree_of pass.new) }
    ensures tried { HasLookedToJoin (sizes tree.now.space) result (tree_of pass.old) (tree_of pass.new) }
    ensures counted { IsPaidBut spent.old spent.new (known pass.old) (known pass.new) }
    ensures grows { IsAlone (sizes tree.now.space) (tree_of pass.old) → Grows 1 2 1 (tree_of pass.old) (tree_of pass.new) }
    ensures won { IsAlone (sizes tree.now.space) (tree_of pass.old) → StaysNewest (tree_of pass.old) (tree_of pass.new) }
    ensures cut { HasCutDue (sizes tree.now.space) (tree_of pass.old).cuts (tree_of pass.new) }
{
    let space = &tree.space;
    let cursor = walk(space, pass, Spot::At(placed.key));
    if cursor.base != placed.row {
        return Adapted::Stay;
    }
    try_join(space, pass, cursor, &tree.tuning, spent)
}

// Whether the base was split.
fn was_split(adapted: &Adapted) -> bool
    ensures { IsTrue result ↔ (adapted.now ≡ IsSplit) }
{
    matches!(adapted, Adapted::Split)
}
