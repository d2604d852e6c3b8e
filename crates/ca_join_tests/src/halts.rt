//! A range by its steps, so that a test can stop between two of them: its first base is marked, and then it goes on, or is given up. Help with it, by another
//! pass. And what the bases of a run have.
ghost use Rattle.std.specs.Prelude.{◌≡◌, ◌+◌, ◌<◌, ◌≤◌};
ghost use Rattle.std.specs.Option.{ForSome};
ghost use Rattle.ca_adapt.specs.Tuned.{IsTuned};
ghost use Rattle.ca_base.specs.Finding.{IsReadable};
ghost use Rattle.ca_join_tests.specs.Halting.{HasFoundRange, IsHalted, MayRead};
ghost use Rattle.ca_model.specs.Edges.{IsProperBound, bound_of};
ghost use Rattle.ca_model.specs.Function.{MayBeAskedForAll};
ghost use Rattle.ca_node.specs.TreePasses.{tree_of as view_of};
ghost use Rattle.ca_node.specs.TreeView.{Note};
ghost use Rattle.ca_range.specs.Snapshots.{IsRemembered, bases_of};
ghost use Rattle.ca_replace.specs.Resting.{IsAtRest};
ghost use Rattle.ca_replace.specs.Running.{IsBaseAt, row_in};
ghost use Rattle.ca_rows.specs.Passes.{IsReading, OnlyReads, sizes};

use crate::halted::{Halted, Met};
use crate::objects::{key_code, object};
use ca_adapt::Tuning;
use ca_base::{copy_object, item, search};
use ca_model::{Code, Spent};
use ca_node::{RangeState, Spot, TreePass, TreeSpace, load_status, load_word, walk};
use ca_range::{
    Account, Further, Helped, MarkedBase, Run, Search, Snapped, begin_snapshot, gather, give_up,
    help_ranges, range_in_use,
};

/// Pins, begins a range, and marks its first base.
pub(crate) fn begin<F: Fn(&[u8]) -> bool>(
    space: &TreeSpace,
    pass: &mut TreePass,
    search: &Search<'_, F>,
) -> Option<Halted>
    requires rests { IsAtRest space.now pass.old }
    requires tuned { IsTuned (sizes space.now) search.now.tuning.now }
    requires edge { IsProperBound (bound_of search.now.sought.now.hi) }
    requires function { MayBeAskedForAll F.Fn search.now.sought.now.counts.now (sizes space.now).keypos }
    requires budget { 1 ≤ search.now.budget }
    ensures halted { ForSome result (λ x. IsHalted F.Fn search.now.sought.now space.now pass.new x) }
{
    space.pin(pass);
    let mut account = Account::new();
    match begin_snapshot(space, pass, search, &mut account) {
        Further::On(gathered) => Some(Halted { gathered, account }),
        Further::Ended(_) => None,
    }
}

/// What was read of a run that came out: the row of its last base, and the keys that its bases have, as `keys_of` tells them.
#[derive(Clone, Copy)]
pub(crate) struct Taken {
    pub(crate) last: u32,
    pub(crate) keys: u8,
}

/// Goes on with a range that stopped. What its run has, if one came out; and what its pass spent in all.
pub(crate) fn go_on<F: Fn(&[u8]) -> bool>(
    space: &TreeSpace,
    pass: &mut TreePass,
    search: &Search<'_, F>,
    halted: Halted,
) -> (Option<Taken>, Spent)
    requires halted { IsHalted F.Fn search.now.sought.now space.now pass.old halted }
    requires tuned { IsTuned (sizes space.now) search.now.tuning.now }
    requires function { MayBeAskedForAll F.Fn search.now.sought.now.counts.now (sizes space.now).keypos }
{
    let mut account = halted.account;
    let snapped = gather(space, pass, halted.gathered, search, &mut account);
    match snapped {
        Snapped::Run(run) => {
            let (last, keys) = (run.last, keys_of(space, pass, run));
            (Some(Taken { last, keys }), account.spent)
        }
        _ => (None, account.spent),
    }
}

/// Gives up a range that stopped.
pub(crate) fn stop<F: Fn(&[u8]) -> bool>(
    space: &TreeSpace,
    pass: &mut TreePass,
    search: &Search<'_, F>,
    halted: Halted,
)
    requires halted { IsHalted F.Fn search.now.sought.now space.now pass.old halted }
{
    let _search = search;
    give_up(space, pass, halted.gathered.own);
}

/// Pins, and finds the range of another pass that has the base to which a key is led.
pub(crate) fn find(space: &TreeSpace, pass: &mut TreePass, key: u32) -> Option<Met>
    requires rests { IsAtRest space.now pass.old }
    requires leaf { (sizes space.now).leaf ≤ 120 }
    ensures found { ForSome result (λ x. HasFoundRange space.now pass.new x) }
{
    space.pin(pass);
    let cursor = walk(space, pass, Spot::At(&key_code(key)));
    let mut account = Account::new();
    match range_in_use(space, pass, cursor, &mut account) {
        Ok(Some(range)) => {
            let from = MarkedBase { cursor, range };
            Some(Met { from, account })
        }
        Ok(None) => None,
        Err(_helped) => None,
    }
}

/// Helps the range that was found. Whether that is over; and what is spent.
pub(crate) fn help(
    space: &TreeSpace,
    pass: &mut TreePass,
    met: Met,
    tuning: &Tuning,
    budget: u32,
) -> (bool, Spent)
    requires found { HasFoundRange space.now pass.old met }
    requires tuned { IsTuned (sizes space.now) tuning.now }
    ensures reading { IsReading space.now pass.new }
{
    let mut account = met.account;
    let helped = help_ranges(space, pass, met.from, tuning, budget, &mut account);
    (matches!(helped, Helped::Finished), account.spent)
}

/// How far the range of a pass is.
#[derive(Clone, Copy, Debug, PartialEq, Eq)]
pub(crate) enum Progress {
    /// It is over without a run.
    Idle,
    /// It is under way.
    Active,
    /// It is decided, with this base as the last one of its run.
    Decided(u32),
}

/// How far the last range of the pass with this number is, if there may be such a pass.
pub(crate) fn load_progress(space: &TreeSpace, pass: &mut TreePass, owner: u32) -> Option<Progress>
    requires reading { IsReading space.now pass.old }
{
    if owner == 0 {
        return None;
    }
    if owner > 64 {
        return None;
    }
    match load_status(space, pass, owner) {
        RangeState::Idle(_) => Some(Progress::Idle),
        RangeState::Active(_) => Some(Progress::Active),
        RangeState::Decided(_, last) => Some(Progress::Decided(last)),
    }
}

// Which keys below 8 have an object with the value 0 in the bases of a run, as a set of bits.
fn keys_of(space: &TreeSpace, pass: &mut TreePass, run: Run) -> u8
    requires may { MayRead space.now pass.old run }
{
    let mut keys = 0_u8;
    let mut row = run.last;
    let mut at = 0_u32;
    while row != 0 {
        keys |= keys_at(space, pass, row);
        row = left_row(space, pass, run, at, row);
        at += 1;
    }
    keys
}

// The row of the base on the left of that which is so many from the last one, and 0 where there is none.
fn left_row(space: &TreeSpace, pass: &mut TreePass, run: Run, at: u32, row: u32) -> u32
    requires reading { IsReading space.now pass.old }
    requires remembered { IsRemembered (sizes space.now) (view_of pass.old) run }
    requires here { IsBaseAt (bases_of run (view_of pass.old)) at row }
    ensures reads { OnlyReads pass.old pass.new }
    ensures left { result ≡ row_in (bases_of run (view_of pass.old)) (at + 1) }
{
    if run.chained {
        return load_word(space, pass, row, 5) as u32;
    }
    0
}

// The same of one base.
fn keys_at(space: &TreeSpace, pass: &mut TreePass, base: u32) -> u8
    requires reading { IsReading space.now pass.old }
    requires readable { (note : Note) × IsReadable (sizes space.now) (view_of pass.old) base note }
    ensures reads { OnlyReads pass.old pass.new }
{
    let mut keys = 0_u8;
    for key in 0..8_u32 {
        if has_in(space, pass, base, key, 0) {
            keys |= 1 << key;
        }
    }
    keys
}

/// Whether a base that the pass was shown has the key's object with this value.
pub(crate) fn has_in(
    space: &TreeSpace,
    pass: &mut TreePass,
    base: u32,
    key: u32,
    value: u32,
) -> bool
    requires reading { IsReading space.now pass.old }
    requires readable { (note : Note) × IsReadable (sizes space.now) (view_of pass.old) base note }
    ensures reads { OnlyReads pass.old pass.new }
{
    let Ok(place) = search(space, pass, base, &key_code(key)) else {
        return false;
    };
    let row = item(space, pass, base, place);
    let mut code = Code::new();
    copy_object(space, pass, row, &mut code);
    code.as_slice() == object(key, value).as_slice()
}
