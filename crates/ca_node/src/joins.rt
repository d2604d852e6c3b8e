//! Single steps on the join word of a route.
ghost use Rattle.std.specs.Prelude.{◌≡◌, ◌≢◌, ℕ, ◌<◌, ◌≤◌, false};
ghost use Rattle.ca_node.specs.Joining.{IsRemembered};
ghost use Rattle.ca_node.specs.JoinSteps.{attempt_of, join_state, join_place, HasLoadedJoin, IsAborting, HasAbortedJoin};
ghost use Rattle.ca_node.specs.JoinSteps.{IsBeginning, HasBegunJoin, IsSecuring, HasSecuredJoin, IsLeavingJoin, HasLeftJoin};
ghost use Rattle.ca_node.specs.States.{IsAlone};
ghost use Rattle.ca_node.specs.TreePasses.{tree_of};
ghost use Rattle.ca_node.specs.TreeView.{Note};
ghost use Rattle.ca_rows.specs.Passes.{IsReading, IsOn, KeepsList, sizes, known};

use crate::join_state::JoinState;
use crate::layout::JOIN;
use crate::plays::{AbortJoin, BeginJoin, LeaveJoin, LoadJoin, SecureJoin};
use crate::rule::{TreePass, TreeSpace};
use ca_rows::ROW_WORDS;

/// One load of how far the join of a route is that the pass was shown. The pass knows from then on of each attempt that was begun, but for one that is under
/// way, that it is finished. An attempt that marked a base which it was shown was begun. A route that was unlinked stays secured. Where the space is for one
/// pass alone one that is under way is its own.
pub fn load_join(space: &TreeSpace, pass: &mut TreePass, route: u32) -> JoinState
    requires reading { IsReading space.now pass.old }
    requires inside { route ≤ (sizes space.now).rows }
    requires remembered { IsRemembered (tree_of pass.old).ways route }
    ensures frame { KeepsList pass.old pass.new }
    ensures loaded { (word : ℕ) × (result ≡ join_state word) × HasLoadedJoin route (known pass.old) word (known pass.new)
        × (word < 18446744073709551616) }
{
    let word = join_word(space, route);
    state_of(space.load::<LoadJoin>(pass, word))
}

/// One exchange by which a pass begins the attempt with this number, 1 or more, to join the bases under a route that it was shown: it is prepared then, and
/// bases may be marked for it. The pass's last load of a join word, since it exchanged one, told that the attempt before is the route's last one, and finished.
/// False exactly where that is so no more: that exchange is lost, and counted. Else the attempt is the pass's own one, which it is to secure, or to leave. A pass
/// that is the only one of the space loses none.
pub fn begin_join(space: &TreeSpace, pass: &mut TreePass, route: u32, attempt: u64) -> bool
    requires own { IsOn space.now pass.old }
    requires inside { route ≤ (sizes space.now).rows }
    requires beginning { IsBeginning (known pass.old) (attempt_of route attempt) }
    requires attempt { attempt < 4611686018427387904 }
    ensures frame { KeepsList pass.old pass.new }
    ensures done { HasBegunJoin result (attempt_of route attempt) (known pass.old) (known pass.new) }
    ensures several { result ≡ false → ¬ IsAlone (sizes space.now) (tree_of pass.old) }
{
    let word = join_word(space, route);
    let last = 4 * (attempt - 1);
    space.swap::<BeginJoin>(pass, word, last, 4 * attempt + 1)
}

/// One exchange by which an attempt of another pass to join the bases under a route is given up that was found prepared. True exactly where this exchange gave
/// it up; else it was prepared no more. Either way it counts as one that the pass helped.
pub fn abort_join(space: &TreeSpace, pass: &mut TreePass, route: u32, attempt: u64) -> bool
    requires own { IsOn space.now pass.old }
    requires inside { route ≤ (sizes space.now).rows }
    requires aborting { IsAborting (known pass.old) (attempt_of route attempt) }
    requires attempt { attempt < 4611686018427387904 }
    ensures frame { KeepsList pass.old pass.new }
    ensures done { HasAbortedJoin result (attempt_of route attempt) (known pass.old) (known pass.new) }
{
    let word = join_word(space, route);
    let idle = 4 * attempt;
    space.swap::<AbortJoin>(pass, word, idle + 1, idle)
}

/// One exchange by which the pass secures its own attempt, whose mark both bases under the route have, as the pass was shown: no exchange of the route's links
/// wins from then on. True exactly where this exchange secured it; else it was prepared no more, and is none of the pass any more.
pub fn secure_join(space: &TreeSpace, pass: &mut TreePass, route: u32, attempt: u64) -> bool
    requires own { IsOn space.now pass.old }
    requires inside { route ≤ (sizes space.now).rows }
    requires securing { (left : Note) × (right : Note)
        × IsSecuring (sizes space.now).leaf (known pass.old) (attempt_of route attempt) left right }
    requires attempt { attempt < 4611686018427387904 }
    ensures frame { KeepsList pass.old pass.new }
    ensures done { HasSecuredJoin result (attempt_of route attempt) (known pass.old) (known pass.new) }
    ensures several { result ≡ false → ¬ IsAlone (sizes space.now) (tree_of pass.old) }
{
    let word = join_word(space, route);
    let idle = 4 * attempt;
    space.swap::<SecureJoin>(pass, word, idle + 1, idle + 2)
}

/// One exchange by which the pass leaves its own attempt, which it didn't secure. True exactly where this exchange gave it up; else it was prepared no more,
/// since another pass had given it up. Either way it is none of the pass any more, and counts as nothing.
pub fn leave_join(space: &TreeSpace, pass: &mut TreePass, route: u32, attempt: u64) -> bool
    requires own { IsOn space.now pass.old }
    requires inside { route ≤ (sizes space.now).rows }
    requires leaving { IsLeavingJoin (known pass.old) (attempt_of route attempt) }
    requires attempt { attempt < 4611686018427387904 }
    ensures frame { KeepsList pass.old pass.new }
    ensures done { HasLeftJoin result (attempt_of route attempt) (known pass.old) (known pass.new) }
    ensures several { result ≡ false → ¬ IsAlone (sizes space.now) (tree_of pass.old) }
{
    let word = join_word(space, route);
    let idle = 4 * attempt;
    space.swap::<LeaveJoin>(pass, word, idle + 1, idle)
}

// The word that says how far the join of a route is.
fn join_word(space: &TreeSpace, route: u32) -> u32
    requires inside { route ≤ (sizes space.now).rows }
    ensures word { result ≡ join_place route }
    ensures inside { result < space.now.table.shared.table_id.words }
{
    ROW_WORDS as u32 * route + JOIN
}

// How far a join is, by its word.
fn state_of(word: u64) -> JoinState
    ensures { result ≡ join_state word }
{
    let attempt = word / 4;
    match word % 4 {
        1 => JoinState::Prep(attempt),
        2 => JoinState::Secured(attempt),
        _ => JoinState::Idle(attempt),
    }
}
