//! Passes between two calls give back the rows that they keep.
ghost use Rattle.std.specs.Prelude.{◌≡◌, ◌⊎◌, ◌↔◌, false, ◌+◌, ◌<◌, ◌≤◌, min, IfErr, IsErr, IsOk, IsTrue, vec_len};
ghost use Rattle.ca_replace.specs.Attempting.{IsPaid, total};
ghost use Rattle.ca_replace.specs.Causes.{GaveBack, HasGiven, HasLooked, IsRefillBy, KeepsFew, MayGoOn};
ghost use Rattle.ca_rows.specs.Passes.{sizes, known, view};
ghost use Rattle.ca_node.specs.TreePasses.{tree_of};
ghost use Rattle.ca_replace.specs.Resting.{IsAtRest, StaysAtRest};

use crate::tree::Tree;
use ca_model::{Cause, Counter, FullCause, Spent};
use ca_node::TreePass;
use ca_rows::{LAST_EPOCH, Reclaimed};

// From so many kept rows on a call gives rows back as it ends.
const MANY: u32 = 60;

// From so many on the epoch is moved as a call ends, where no kept row can be taken again yet.
const SOME: u32 = 16;

/// Sees to it that kept rows can be taken again, where the pass keeps some, and gives rows back, where it keeps many. It answers how many exchanges it
/// lost by that.
pub(crate) fn keep_few(tree: &Tree, pass: &mut TreePass) -> u32
    requires resting { IsAtRest tree.now.space pass.old }
    ensures frame { StaysAtRest tree.now.space pass.old pass.new }
    ensures gave { GaveBack (known pass.old) (known pass.new) }
    ensures few { KeepsFew (known pass.old) (known pass.new) pass.new.kept.rows }
    ensures lost { (view pass.new).lost ≡ (view pass.old).lost + result }
    ensures left { (view pass.new).pin.left ≡ (view pass.old).pin.left }
{
    match pass.kept() {
        0..SOME => 0,
        SOME..MANY => grow_old(tree, pass),
        _ => give_back_kept(tree, pass).losses,
    }
}

// Moves the epoch, where no kept row can be taken again yet, and answers how many exchanges were lost by that.
fn grow_old(tree: &Tree, pass: &mut TreePass) -> u32
    requires resting { IsAtRest tree.now.space pass.old }
    ensures frame { StaysAtRest tree.now.space pass.old pass.new }
    ensures gave { GaveBack (known pass.old) (known pass.new) }
    ensures fewer { vec_len pass.new.kept.rows ≤ vec_len pass.old.kept.rows }
    ensures lost { (view pass.new).lost ≡ (view pass.old).lost + result }
    ensures left { (view pass.new).pin.left ≡ (view pass.old).pin.left }
{
    tree.space.advance(pass)
}

/// What becomes of a call whose attempt found no free row, and began with so many rows kept: rows are given back, and another attempt
/// may begin, or the call is refused.
pub(crate) fn refill(
    tree: &Tree,
    pass: &mut TreePass,
    kept: u32,
    budget: u32,
    spent: &mut Spent,
) -> Result<(), Cause>
    requires resting { IsAtRest tree.now.space pass.old }
    ensures frame { StaysAtRest tree.now.space pass.old pass.new }
    ensures gave { GaveBack (known pass.old) (known pass.new) }
    ensures counted { IsPaid spent.old spent.new (known pass.old) (known pass.new) }
    ensures again { IsOk result → MayGoOn kept budget spent.old spent.new (known pass.old) (known pass.new) pass.new.kept.rows }
    ensures looked { HasLooked (known pass.old) (known pass.new) }
    ensures refused { IfErr result (λ why. IsRefillBy tree.now.space budget kept spent.new why pass.old pass.new) }
    ensures few { IsErr result → KeepsFew (known pass.old) (known pass.new) pass.new.kept.rows }
{
    let given = give_back_kept(tree, pass);
    spent.lost = add(spent.lost, given.losses);
    if spent_in_all(spent) >= budget {
        return Err(Cause::Busy(*spent));
    }
    if kept == 0 || given.lag.is_some() {
        return Err(Cause::Full(FullCause {
            kept,
            lag: given.lag,
        }));
    }
    if given.epoch >= LAST_EPOCH && given.kept > 0 {
        return Err(Cause::Worn(Counter::Epoch));
    }
    Ok(())
}

/// Gives back rows that a pass keeps between two calls.
pub(crate) fn give_back_kept(tree: &Tree, pass: &mut TreePass) -> Reclaimed
    requires resting { IsAtRest tree.now.space pass.old }
    ensures frame { StaysAtRest tree.now.space pass.old pass.new }
    ensures given { HasGiven (sizes tree.now.space).passes pass.old.number result (known pass.old) (known pass.new) pass.new.kept.rows }
{
    tree.space.reclaim(pass)
}

/// How many turns were spent, up to the last number that 32 bits hold.
pub(crate) fn spent_in_all(spent: &Spent) -> u32
    ensures { result ≡ min 4294967295 (total spent.now) }
{
    add(add(spent.lost, spent.helped), spent.passed)
}

/// The sum of two counts, up to the last one that 32 bits hold.
pub(crate) fn add(count: u32, more: u32) -> u32
    ensures sum { result ≡ min (count + more) 4294967295 }
    ensures more { count ≤ result }
{
    count.saturating_add(more)
}
