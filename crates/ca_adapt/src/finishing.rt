//! An attempt to join that is secured is finished: the joined base takes the place of the route.
ghost use Rattle.std.specs.Prelude.{◌≡◌, ◌≢◌, ◌+◌, ◌*◌, ◌<◌, ◌≤◌, [], ◌∷◌, not, true, false};
ghost use Rattle.ca_adapt.specs.Carrying.{StaysPinned};
ghost use Rattle.ca_adapt.specs.Finishing.{AreRowsOf, HasFinished, HasPutJoined, HasUnitedBy, IsHungBy, KeepsFinished, KeepsJoined, finish_by};
ghost use Rattle.ca_base.specs.Counting.{HasMet};
ghost use Rattle.ca_base.specs.Readiness.{IsReady, StaysReady};
ghost use Rattle.ca_base.specs.Spending.{IsSpentOn};
ghost use Rattle.ca_base.specs.Taking.{AreHeld};
ghost use Rattle.ca_node.specs.JoinSteps.{attempt_of};
ghost use Rattle.ca_node.specs.Joining.{IsRemembered};
ghost use Rattle.ca_node.specs.Links.{IsIn};
ghost use Rattle.ca_node.specs.Row.{level};
ghost use Rattle.ca_node.specs.Told.{link_word};
ghost use Rattle.ca_node.specs.States.{IsAlone};
ghost use Rattle.ca_node.specs.TreePasses.{tree_of};
ghost use Rattle.ca_node.specs.TreeView.{Secured as IsSecured, Way, own_behind};
ghost use Rattle.ca_node.specs.Unlinks.{IsUnlinking, attempt_by};
ghost use Rattle.ca_rows.specs.Layout.{row_words};
ghost use Rattle.ca_rows.specs.Passes.{IsOn, IsReading, OnlyReads, sizes, known, view};

use crate::joining::Attempt;
use ca_base::{Stop, give_back, lose, retire_unlinked, take, write_joined};
use ca_model::Spent;
use ca_node::{
    BASE_FORM, COUNT_LIMIT, Link, TreePass, TreeSpace, Unlinks, load_link, load_word, unlink_route,
};
use std::marker::Brand;

// The form of a route, as a number: so it is noted of a row that is kept what it was.
const ROUTE_FORM: u32 = 3;

/// What became of an attempt to join that is secured.
#[derive(Clone, Copy, Debug, PartialEq, Eq)]
pub enum Finish {
    /// It is finished: by this pass, or by another one before.
    Done,
    /// No row was free.
    NoRow,
    /// The exchange of the pool's head was lost to another pass.
    Lost,
    /// The pool's tag can rise no more.
    Worn,
}

/// The attempt to join two bases, the rows of both, and that of the base which is to take the place of their route.
#[derive(Clone, Copy)]
pub(crate) struct Union {
    pub(crate) attempt: Attempt,
    pub(crate) left: u32,
    pub(crate) right: u32,
    pub(crate) new: u32,
}

/// Finishes an attempt to join that the pass knows to be secured, of a route that it remembers, which hangs on the link `above`, and which isn't the pass's
/// own: a base that has the objects of both bases under the route takes its place, by one exchange of that link. Where another pass did so before, that
/// exchange is lost. Either way the pass remembers no base and no route any more. The attempt counts as an operation that was helped where the exchange won,
/// but not again where it was `counted` so before. Where there is no row for that base it answers why, and remembers all still.
pub fn finish_join(
    space: &TreeSpace,
    pass: &mut TreePass,
    attempt: Attempt,
    above: Link,
    counted: bool,
    spent: &mut Spent,
) -> Finish
    requires ready { IsReady space.now pass.old }
    requires leaf { (sizes space.now).leaf ≤ 120 }
    requires secured { IsIn (attempt_of attempt.route attempt.number) (tree_of pass.old).ranges.joins.secured }
    requires above { IsHungBy (sizes space.now) (tree_of pass.old) attempt.route above }
    requires other { (tree_of pass.old).ranges.own ≢ IsSecured (attempt_of attempt.route attempt.number) }
    requires decided { counted ≡ true → IsIn (attempt_of attempt.route attempt.number) (tree_of pass.old).ranges.joins.decided }
    ensures frame { StaysReady space.now pass.old pass.new }
    ensures finished { HasFinished (sizes space.now) counted result (known pass.old) (known pass.new) }
    ensures united { HasUnitedBy (attempt_of attempt.route attempt.number) result (known pass.old) (known pass.new) }
    ensures counted { IsSpentOn spent.old spent.new (known pass.old) (known pass.new) }
    ensures back { KeepsFinished attempt.route result (known pass.old) (known pass.new) pass.old.kept pass.new.kept }
{
    let route = attempt.route;
    let left = load_link(space, pass, Link::Left(route));
    let right = load_link(space, pass, Link::Right(route));
    let level = route_level(space, pass, route);
    let new = match take(space, pass, BASE_FORM, spent) {
        Ok(row) => row,
        Err(why) => return lacking(why),
    };
    write_joined(space, pass, new, left, right, level);
    let rows = Union {
        attempt,
        left,
        right,
        new,
    };
    put_joined::<Brand>(space, pass, above, rows, counted, spent);
    Finish::Done
}

/// The level of a route that the pass was shown.
pub(crate) fn route_level(space: &TreeSpace, pass: &mut TreePass, route: u32) -> u16
    requires reading { IsReading space.now pass.old }
    requires inside { route ≤ (sizes space.now).rows }
    requires remembered { IsRemembered (tree_of pass.old).ways route }
    ensures frame { OnlyReads pass.old pass.new }
    ensures level { (way : Way) → IsIn way (tree_of pass.old).ways → way.row ≡ route → result ≡ level way.its }
{
    (load_word(space, pass, route, 0) / COUNT_LIMIT % COUNT_LIMIT) as u16
}

// Why an attempt wasn't finished, by why there was no row.
fn lacking(why: Stop) -> Finish
    ensures { result ≡ finish_by why }
{
    match why {
        Stop::Lost(_) => Finish::Lost,
        Stop::Empty => Finish::NoRow,
        Stop::Worn => Finish::Worn,
    }
}

// Puts the joined base in the place of the route, by one exchange of the link on which the route hangs, as `K` says, and retires the three rows that went.
// Where the exchange is lost the row is put back. It answers whether the exchange won.
pub(crate) fn put_joined<K: Unlinks>(
    space: &TreeSpace,
    pass: &mut TreePass,
    above: Link,
    rows: Union,
    counted: bool,
    spent: &mut Spent,
) -> bool
    requires own { IsOn space.now pass.old }
    requires unlinking { IsUnlinking (sizes space.now) (known pass.old) rows.new K.unlinking }
    requires rows { AreRowsOf K.unlinking rows }
    requires counts { K.unlinking.counts ≡ not counted }
    requires link { K.unlinking.way.place.link ≡ link_word above }
    requires inside { link_word above < row_words * (sizes space.now).rows + row_words }
    requires held { AreHeld (sizes space.now).rows pass.old.kept.rows (view pass.old) (rows.new ∷ []) }
    ensures frame { StaysPinned pass.old pass.new }
    ensures none { AreHeld (sizes space.now).rows pass.new.kept.rows (view pass.new) [] }
    ensures own { (tree_of pass.new).ranges.own ≡ own_behind (attempt_by K.unlinking) (tree_of pass.old).ranges.own }
    ensures done { HasPutJoined result rows.new K.unlinking (known pass.old) (known pass.new) }
    ensures won { result ≡ false → ¬ IsAlone (sizes space.now) (tree_of pass.old) }
    ensures counted { IsSpentOn spent.old spent.new (known pass.old) (known pass.new) }
    ensures helped { counted ≡ true → spent.new.helped ≡ spent.old.helped }
    ensures met { HasMet 0 0 (known pass.old) (known pass.new) }
    ensures back { KeepsJoined rows (known pass.old) (known pass.new) pass.old.kept pass.new.kept }
{
    if !unlink_route::<K>(space, pass, above, rows.attempt.route, rows.new) {
        lose(spent);
        give_back(space, pass, rows.new, BASE_FORM, spent);
        return false;
    }
    retire_unlinked(space, pass, rows.attempt.route, ROUTE_FORM);
    retire_unlinked(space, pass, rows.left, BASE_FORM);
    retire_unlinked(space, pass, rows.right, BASE_FORM);
    if !counted {
        spent.helped = spent.helped.saturating_add(1);
        return true;
    }
    true
}
