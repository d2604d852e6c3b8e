//! An own attempt to join two bases is carried to its end: both are marked, it is secured and the route is unlinked; or it is left.
ghost use Rattle.std.specs.Prelude.{◌≡◌, ◌<◌, ◌≤◌, [], ◌∷◌, IsOk};
ghost use Rattle.ca_adapt.specs.Carrying.{HasCarriedOut, HasConcluded, HasPrepared, HasUnited, Holds, IsSecurable, IsUniting, StaysPinned};
ghost use Rattle.ca_adapt.specs.Carrying.{held_by, ordered, outcome_of, why_not};
ghost use Rattle.ca_adapt.specs.Finishing.{IsHungBy};
ghost use Rattle.ca_adapt.specs.Joins.{shown_on};
ghost use Rattle.ca_adapt.specs.Pairs.{IsPair, IsThere};
ghost use Rattle.ca_adapt.specs.Trying.{IsJoinSteps, IsLoneBy, IsLoneTry, IsSpentTrying};
ghost use Rattle.ca_base.specs.Counting.{HasFound};
ghost use Rattle.ca_base.specs.Readiness.{IsReady};
ghost use Rattle.ca_node.specs.JoinSteps.{attempt_of};
ghost use Rattle.ca_node.specs.Inventory.{IsListed};
ghost use Rattle.ca_node.specs.States.{IsAlone};
ghost use Rattle.ca_node.specs.TreePasses.{tree_of};
ghost use Rattle.ca_node.specs.TreeView.{Joining, Note, Quiet, Secured};
ghost use Rattle.ca_rows.specs.Passes.{IsReading, sizes, known};

use crate::adapted::Why;
use crate::finishing::{Union, put_joined, route_level};
use crate::joining::Attempt;
use crate::marking::{Marked, Pair, mark_both};
use ca_base::{Stop, give_back, take, write_joined};
use ca_model::Spent;
use ca_node::{BASE_FORM, Link, TreePass, TreeSpace, leave_join, secure_join};
use std::marker::Brand;

/// The rows of both copies that are marked, and a row for the base to which they are joined.
#[derive(Clone, Copy)]
pub struct Copies {
    pub marked: Marked,
    pub new: u32,
}

/// A route that is to be unlinked: the attempt that is secured, the link on which the route hangs, both bases, and a row for the one to which they are joined.
#[derive(Clone, Copy)]
pub struct Uniting {
    pub attempt: Attempt,
    pub above: Link,
    pub left: u32,
    pub right: u32,
    pub new: u32,
}

/// Carries the pass's own attempt to join a pair to its end. Where a mark or a row's taking comes to nothing the attempt is left; where another pass gave it up
/// before it was secured, or unlinked the route, that is `Lost`.
pub(crate) fn carry_out(
    space: &TreeSpace,
    pass: &mut TreePass,
    pair: Pair,
    above: Link,
    spent: &mut Spent,
) -> Result<(), Why>
    requires ready { IsReady space.now pass.old }
    requires leaf { (sizes space.now).leaf ≤ 120 }
    requires pair { IsPair (sizes space.now) (tree_of pass.old) pair (shown_on pass.old pair.one.link) (shown_on pass.old pair.other.link) }
    requires hung { IsHungBy (sizes space.now) (tree_of pass.old) pair.attempt.route above }
    requires own { (tree_of pass.old).ranges.own ≡ Joining (attempt_of pair.attempt.route pair.attempt.number) }
    requires number { pair.attempt.number < 4611686018427387904 }
    ensures frame { StaysPinned pass.old pass.new }
    ensures none { Holds space.now pass.new [] }
    ensures own { (tree_of pass.new).ranges.own ≡ Quiet }
    ensures steps { IsJoinSteps (sizes space.now) (tree_of pass.old) (tree_of pass.new) }
    ensures done { HasCarriedOut pair.attempt result (known pass.old) (known pass.new) }
    ensures alone { IsAlone (sizes space.now) (tree_of pass.old) → IsListed (tree_of pass.old).inventory (shown_on pass.old pair.one.link)
        → IsThere (tree_of pass.old).inventory (shown_on pass.old pair.other.link) → IsLoneTry (outcome_of result) (known pass.old) (known pass.new) }
    ensures counted { IsSpentTrying spent.old spent.new (known pass.old) (known pass.new) }
{
    match prepare(space, pass, pair, spent) {
        Ok(copies) => conclude(space, pass, pair, above, copies, spent),
        Err(why) => {
            leave_join(space, pass, pair.attempt.route, pair.attempt.number);
            Err(cause(why))
        }
    }
}

/// Marks both bases, and takes a row for the base to which they are joined.
pub fn prepare(
    space: &TreeSpace,
    pass: &mut TreePass,
    pair: Pair,
    spent: &mut Spent,
) -> Result<Copies, Stop>
    requires ready { IsReady space.now pass.old }
    requires leaf { (sizes space.now).leaf ≤ 120 }
    requires pair { IsPair (sizes space.now) (tree_of pass.old) pair (shown_on pass.old pair.one.link) (shown_on pass.old pair.other.link) }
    ensures frame { StaysPinned pass.old pass.new }
    ensures held { Holds space.now pass.new (held_by result) }
    ensures own { (tree_of pass.new).ranges.own ≡ (tree_of pass.old).ranges.own }
    ensures prepared { HasPrepared (sizes space.now) pair (shown_on pass.old pair.one.link) (shown_on pass.old pair.other.link) result (tree_of pass.old)
        (tree_of pass.new) }
    ensures alone { IsAlone (sizes space.now) (tree_of pass.old) → IsListed (tree_of pass.old).inventory (shown_on pass.old pair.one.link)
        → IsThere (tree_of pass.old).inventory (shown_on pass.old pair.other.link) → IsLoneBy 0 (tree_of pass.old) (tree_of pass.new) }
    ensures counted { IsSpentTrying spent.old spent.new (known pass.old) (known pass.new) }
    ensures found { HasFound result (known pass.old) (known pass.new) }
{
    let marked = mark_both(space, pass, pair, spent)?;
    let new = take(space, pass, BASE_FORM, spent)?;
    Ok(Copies { marked, new })
}

// Secures the attempt, for which both bases are marked, and unlinks the route. Where another pass gave the attempt up before, the new row is put back.
fn conclude(
    space: &TreeSpace,
    pass: &mut TreePass,
    pair: Pair,
    above: Link,
    copies: Copies,
    spent: &mut Spent,
) -> Result<(), Why>
    requires reading { IsReading space.now pass.old }
    requires leaf { (sizes space.now).leaf ≤ 120 }
    requires securable { (one : Note) × (other : Note) × IsSecurable (sizes space.now) (known pass.old) pair copies.marked one other }
    requires hung { IsHungBy (sizes space.now) (tree_of pass.old) pair.attempt.route above }
    requires held { Holds space.now pass.old (copies.new ∷ []) }
    ensures frame { StaysPinned pass.old pass.new }
    ensures none { Holds space.now pass.new [] }
    ensures own { (tree_of pass.new).ranges.own ≡ Quiet }
    ensures steps { IsJoinSteps (sizes space.now) (tree_of pass.old) (tree_of pass.new) }
    ensures done { HasConcluded pair.attempt result (known pass.old) (known pass.new) }
    ensures alone { IsAlone (sizes space.now) (tree_of pass.old) → IsOk result × IsLoneBy 1 (tree_of pass.old) (tree_of pass.new) }
    ensures counted { IsSpentTrying spent.old spent.new (known pass.old) (known pass.new) }
{
    let attempt = pair.attempt;
    if !secure_join(space, pass, attempt.route, attempt.number) {
        give_back(space, pass, copies.new, BASE_FORM, spent);
        return Err(Why::Lost);
    }
    let (left, right) = in_order(pair.one.link, copies.marked);
    let uniting = Uniting {
        attempt,
        above,
        left,
        right,
        new: copies.new,
    };
    if unite(space, pass, uniting, spent) {
        Ok(())
    } else {
        Err(Why::Lost)
    }
}

/// Writes the base to which both are joined, and unlinks the route by one exchange. Where that was lost, the row is put back.
pub fn unite(space: &TreeSpace, pass: &mut TreePass, uniting: Uniting, spent: &mut Spent) -> bool
    requires reading { IsReading space.now pass.old }
    requires leaf { (sizes space.now).leaf ≤ 120 }
    requires number { 0 < (tree_of pass.old).number }
    requires uniting { (left : Note) × (right : Note) × IsUniting (sizes space.now) (tree_of pass.old) uniting left right }
    requires held { Holds space.now pass.old (uniting.new ∷ []) }
    requires own { (tree_of pass.old).ranges.own ≡ Secured (attempt_of uniting.attempt.route uniting.attempt.number) }
    ensures frame { StaysPinned pass.old pass.new }
    ensures none { Holds space.now pass.new [] }
    ensures own { (tree_of pass.new).ranges.own ≡ Quiet }
    ensures steps { IsJoinSteps (sizes space.now) (tree_of pass.old) (tree_of pass.new) }
    ensures united { HasUnited result (known pass.old) (known pass.new) }
    ensures alone { IsAlone (sizes space.now) (tree_of pass.old) → IsLoneBy 1 (tree_of pass.old) (tree_of pass.new) }
    ensures counted { IsSpentTrying spent.old spent.new (known pass.old) (known pass.new) }
{
    let attempt = uniting.attempt;
    let level = route_level(space, pass, attempt.route);
    write_joined(space, pass, uniting.new, uniting.left, uniting.right, level);
    let rows = Union {
        attempt,
        left: uniting.left,
        right: uniting.right,
        new: uniting.new,
    };
    put_joined::<Brand>(space, pass, uniting.above, rows, true, spent)
}

/// The rows of both copies, the left one first.
pub fn in_order(link: Link, marked: Marked) -> (u32, u32)
    ensures { result ≡ ordered link marked }
{
    match link {
        Link::Root => (marked.one, marked.other),
        Link::Left(_) => (marked.one, marked.other),
        Link::Right(_) => (marked.other, marked.one),
    }
}

// Why a base is not joined, by why a try came to nothing.
fn cause(why: Stop) -> Why
    ensures { result ≡ why_not why }
{
    match why {
        Stop::Lost(_) => Why::Lost,
        Stop::Empty => Why::NoRow,
        Stop::Worn => Why::Worn,
    }
}
