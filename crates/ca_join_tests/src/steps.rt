//! An attempt to join by its steps, so that a test can stop between two of them.
ghost use Rattle.std.specs.Prelude.{◌≡◌, ◌≤◌};
ghost use Rattle.std.specs.Option.{ForSome};
ghost use Rattle.ca_adapt.specs.Tuned.{IsTuned};
ghost use Rattle.ca_join_tests.specs.Stopping.{HasBegun, HasLooked, IsPrepared, IsSecured};
ghost use Rattle.ca_replace.specs.Resting.{IsAtRest};
ghost use Rattle.ca_rows.specs.Passes.{sizes};

use ca_adapt::{
    Adapted, Copies, Pair, Tuning, Uniting, base_level, begin_attempt, fork_at, in_order,
    look_aside, prepare, try_join, unite,
};
use ca_model::Spent;
use ca_node::{Cursor, Link, Spot, TreePass, TreeSpace, load_word, secure_join, walk};

/// What a call spent that did nothing yet.
pub(crate) const NOTHING: Spent = Spent {
    lost: 0,
    helped: 0,
    passed: 0,
};

/// An attempt that was begun, and the link on which its route hangs.
#[derive(Clone, Copy)]
pub(crate) struct Begun {
    pub(crate) pair: Pair,
    pub(crate) above: Link,
}

/// The same, with the rows of both bases that are marked for it, and one for the base to which they are to be joined.
#[derive(Clone, Copy)]
pub(crate) struct Stopped {
    pub(crate) pair: Pair,
    pub(crate) above: Link,
    pub(crate) copies: Copies,
}

/// Pins, and walks to the base to which a key is led, if nothing marked it.
pub(crate) fn look(space: &TreeSpace, pass: &mut TreePass, key: u8) -> Option<Cursor>
    requires rests { IsAtRest space.now pass.old }
    ensures looked { ForSome result (λ cursor. HasLooked space.now pass.new cursor) }
{
    space.pin(pass);
    let cursor = walk(space, pass, Spot::At(&[0x24, 1, 0, 0, key]));
    let kind = load_word(space, pass, cursor.base, 2);
    if kind != 0 {
        return None;
    }
    Some(cursor)
}

/// Begins an attempt to join the base under the cursor with its sibling.
pub(crate) fn begin(
    space: &TreeSpace,
    pass: &mut TreePass,
    cursor: Cursor,
    leaf: u32,
) -> Option<Begun>
    requires looked { HasLooked space.now pass.old cursor }
    requires leaf { (leaf ≡ (sizes space.now).leaf) × (leaf ≤ 120) }
    ensures begun { ForSome result (λ x. HasBegun space.now pass.new x.pair x.above) }
{
    let Some(fork) = fork_at(cursor) else {
        return None;
    };
    let Ok(base) = look_aside(space, pass, cursor, fork, leaf) else {
        return None;
    };
    let level = base_level(space, pass, base);
    let Ok(attempt) = begin_attempt(space, pass, fork.route) else {
        return None;
    };
    let link = fork.other;
    let other = Cursor {
        base,
        link,
        level,
        ..cursor
    };
    let pair = Pair {
        one: cursor,
        other,
        attempt,
    };
    let above = fork.above;
    Some(Begun { pair, above })
}

/// Marks both bases, and takes a row for the base to which they are to be joined.
pub(crate) fn mark(space: &TreeSpace, pass: &mut TreePass, begun: Begun) -> Option<Stopped>
    requires begun { HasBegun space.now pass.old begun.pair begun.above }
    requires leaf { (sizes space.now).leaf ≤ 120 }
    ensures prepared { ForSome result (λ x. IsPrepared space.now pass.new x.pair x.above x.copies) }
{
    let pair = begun.pair;
    let above = begun.above;
    let mut spent = NOTHING;
    match prepare(space, pass, pair, &mut spent) {
        Ok(copies) => Some(Stopped {
            pair,
            above,
            copies,
        }),
        Err(_why) => None,
    }
}

/// Looks at the base to which a key is led, and begins to join it with its sibling. It stops behind it marked both.
pub(crate) fn stop(space: &TreeSpace, pass: &mut TreePass, key: u8, leaf: u32) -> Option<Stopped>
    requires rests { IsAtRest space.now pass.old }
    requires leaf { (leaf ≡ (sizes space.now).leaf) × (leaf ≤ 120) }
    ensures prepared { ForSome result (λ x. IsPrepared space.now pass.new x.pair x.above x.copies) }
{
    let cursor = look(space, pass, key)?;
    let begun = begin(space, pass, cursor, leaf)?;
    mark(space, pass, begun)
}

/// Secures the attempt. None where another pass gave it up before.
pub(crate) fn secure(space: &TreeSpace, pass: &mut TreePass, stopped: Stopped) -> Option<Uniting>
    requires prepared { IsPrepared space.now pass.old stopped.pair stopped.above stopped.copies }
    ensures secured { ForSome result (λ uniting. IsSecured space.now pass.new uniting) }
{
    let attempt = stopped.pair.attempt;
    if !secure_join(space, pass, attempt.route, attempt.number) {
        return None;
    }
    let (left, right) = in_order(stopped.pair.one.link, stopped.copies.marked);
    Some(Uniting {
        attempt,
        above: stopped.above,
        left,
        right,
        new: stopped.copies.new,
    })
}

/// Unlinks the route of the attempt that is secured. Whether that exchange won, and how many were lost.
pub(crate) fn unlink(space: &TreeSpace, pass: &mut TreePass, uniting: Uniting) -> (bool, u32)
    requires secured { IsSecured space.now pass.old uniting }
    requires leaf { (sizes space.now).leaf ≤ 120 }
{
    let mut spent = NOTHING;
    let won = unite(space, pass, uniting, &mut spent);
    (won, spent.lost)
}

/// Joins the base under the cursor with its sibling, by all steps one behind the other.
pub(crate) fn join(
    space: &TreeSpace,
    pass: &mut TreePass,
    cursor: Cursor,
    tuning: &Tuning,
) -> Adapted
    requires looked { HasLooked space.now pass.old cursor }
    requires tuned { IsTuned (sizes space.now) tuning.now }
{
    let mut spent = NOTHING;
    try_join(space, pass, cursor, tuning, &mut spent)
}
