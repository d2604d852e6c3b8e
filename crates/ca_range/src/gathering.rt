//! The bases of a pass's own range are gathered, one behind the other.
ghost use Rattle.std.specs.Prelude.{◌≡◌, ◌+◌, ℕ, vec_len};
ghost use Rattle.ca_adapt.specs.Tuned.{IsTuned};
ghost use Rattle.ca_base.specs.Readiness.{IsReady};
ghost use Rattle.ca_model.specs.Function.{MayBeAskedForAll};
ghost use Rattle.ca_node.specs.States.{IsAlone};
ghost use Rattle.ca_node.specs.Told.{MyTree};
ghost use Rattle.ca_node.specs.TreePasses.{tree_of};
ghost use Rattle.ca_node.specs.TreeView.{Quiet};
ghost use Rattle.ca_range.specs.Farther.{reach};
ghost use Rattle.ca_range.specs.Gathering.{EndsUnspent, HasEnded, IsFurther, IsGathering, IsOver};
ghost use Rattle.ca_range.specs.Loading.{EndsBy, GathersBy};
ghost use Rattle.ca_range.specs.Lonely.{ComesAlone, EndsAlone, GathersAlone};
ghost use Rattle.ca_range.specs.Meeting.{AreMet};
ghost use Rattle.ca_range.specs.Snapping.{GoesOn};
ghost use Rattle.ca_range.specs.Snapshots.{IsInBudget};
ghost use Rattle.ca_rows.specs.Passes.{sizes, known};

use crate::account::Account;
use crate::going::go_to;
use crate::helping::turns;
use crate::looking::{Looked, look};
use crate::own::Gathered;
use crate::settling::{decide_run, give_up};
use crate::sought::{Search, Snapped};
use ca_model::Code;
use ca_node::{Spot, TreePass, TreeSpace, walk};

/// What a step of a snapshot comes to.
#[derive(Clone, Copy)]
pub enum Further {
    /// One base more is marked.
    On(Gathered),
    /// No more steps are needed, or they can't be taken.
    Ended(Snapped),
}

/// Gathers the bases of a range of the pass, from the one that was shown last, until they have all up to the upper edge, or as many objects as are wanted.
pub fn gather<F: Fn(&[u8]) -> bool>(
    space: &TreeSpace,
    pass: &mut TreePass,
    first: Gathered,
    search: &Search<'_, F>,
    account: &mut Account,
) -> Snapped
    requires ready { IsReady space.now pass.old }
    requires number { pass.old.number ≡ (tree_of pass.old).number }
    requires tuned { IsTuned (sizes space.now) search.now.tuning.now }
    requires function { MayBeAskedForAll F.Fn search.now.sought.now.counts.now (sizes space.now).keypos }
    requires met { AreMet account.old.met.numbers (tree_of pass.old).ranges.unfinished }
    requires gathering { IsGathering F.Fn search.now.sought.now (sizes space.now) (tree_of pass.old) first }
    ensures goes { GoesOn space.now account.old.spent account.new.spent pass.old pass.new }
    ensures quiet { (tree_of pass.new).ranges.own ≡ Quiet }
    ensures met { AreMet account.new.met.numbers (tree_of pass.new).ranges.unfinished }
    ensures ended { HasEnded F.Fn search.now.sought.now (sizes space.now) search.now.budget account.new.spent result (known pass.old) (known pass.new) }
    ensures in_budget { IsInBudget search.now.budget account.new.spent result }
    ensures loads { EndsBy (sizes space.now) (tree_of pass.old) (tree_of pass.new) }
    ensures alone { (kept : ℕ) (m : MyTree) → IsAlone (sizes space.now) (tree_of pass.old) → GathersAlone kept (vec_len pass.old.kept.rows) m (known pass.old)
        → EndsAlone (sizes space.now) result kept (vec_len pass.new.kept.rows) m (known pass.new) }
{
    let mut last = first;
    while turns(&account.spent) < u64::from(search.budget) {
        match go_further(space, pass, last, search, account) {
            Further::On(next) => last = next,
            Further::Ended(snapped) => return snapped,
        }
    }
    give_up(space, pass, last.own);
    Snapped::Busy
}

/// One step: the next base is marked, if one is needed, and if it can be. Else the range is over.
pub fn go_further<F: Fn(&[u8]) -> bool>(
    space: &TreeSpace,
    pass: &mut TreePass,
    from: Gathered,
    search: &Search<'_, F>,
    account: &mut Account,
) -> Further
    requires ready { IsReady space.now pass.old }
    requires number { pass.old.number ≡ (tree_of pass.old).number }
    requires tuned { IsTuned (sizes space.now) search.now.tuning.now }
    requires function { MayBeAskedForAll F.Fn search.now.sought.now.counts.now (sizes space.now).keypos }
    requires met { AreMet account.old.met.numbers (tree_of pass.old).ranges.unfinished }
    requires gathering { IsGathering F.Fn search.now.sought.now (sizes space.now) (tree_of pass.old) from }
    ensures goes { GoesOn space.now account.old.spent account.new.spent pass.old pass.new }
    ensures met { AreMet account.new.met.numbers (tree_of pass.new).ranges.unfinished }
    ensures further { IsFurther F.Fn search.now.sought.now (sizes space.now) (reach (tree_of pass.old)) search.now.budget account.new.spent result
        (known pass.old) (known pass.new) }
    ensures quiet { IsOver result (tree_of pass.new) }
    ensures unspent { EndsUnspent result account.old.spent account.new.spent }
    ensures loads { GathersBy (sizes space.now) ((sizes space.now).levels + 1) result (tree_of pass.old) (tree_of pass.new) }
    ensures alone { (kept : ℕ) (m : MyTree) → IsAlone (sizes space.now) (tree_of pass.old) → GathersAlone kept (vec_len pass.old.kept.rows) m (known pass.old)
        → ComesAlone (sizes space.now) result kept (vec_len pass.new.kept.rows) m (known pass.new) }
{
    let mut key = Code::new();
    match look(
        space,
        pass,
        &from.left,
        search.sought,
        from.counted,
        &mut key,
    ) {
        Looked::Done(whole) => {
            let run = decide_run(space, pass, &from, search.sought, whole);
            Further::Ended(Snapped::Run(run))
        }
        Looked::On(counted) => {
            let next = walk(space, pass, Spot::At(&key));
            go_to(
                space,
                pass,
                Gathered { counted, ..from },
                next,
                search,
                account,
            )
        }
    }
}
