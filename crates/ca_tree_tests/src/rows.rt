//! Rows under the tree's rule, by one pass, by two, and by two on threads.
ghost use Rattle.std.specs.Prelude.{false, true};
ghost use Rattle.ca_rows.specs.Calls.{IsOf, TakesRow};
ghost use Rattle.ca_tree_tests.specs.Ready.{IsAt};

use crate::trees::ZERO;
use ca_node::{BASE_FORM, OBJECT_FORM, TreePass, TreeSpace};
use ca_rows::{Starts, Taken};
use std::alloc::Global;
use std::thread::{Threads, join};

// A step of a pass.
#[derive(Clone, Copy)]
enum Step {
    // Takes a row.
    Take,
    // Takes a row, and retires it.
    Retire,
    // Gives rows back that it kept long enough.
    Reclaim,
    // Takes all free rows.
    TakeAll,
}

// What it comes to.
#[derive(Clone, Copy, PartialEq, Eq)]
enum Came {
    Took(Taken),
    // The pass keeps so many rows.
    Keeps(u32),
    // So many were given back, so many are kept, this pass lags, and the epoch is this one.
    Gave(u32, u32, Option<u32>, u64),
    // An exchange was lost.
    Lost,
    // So many rows, each of which was taken once; none, where a row came twice.
    Were(Option<u32>),
}

use Came::{Gave, Keeps, Took, Were};
use Step::{Reclaim, Retire, Take, TakeAll};

// The place of the first step that comes to something else.
fn wrong_step(space: &TreeSpace, pass: &mut TreePass, script: &[(Step, Came)]) -> Option<usize>
    requires { IsAt false space.now.table.shared.table_id space.now.table.shared.key pass.old.number pass.old.kept pass.old.seat }
    ensures { IsAt false space.now.table.shared.table_id space.now.table.shared.key pass.new.number pass.new.kept pass.new.seat }
{
    for place in 0..script.len() {
        let (step, wanted) = script[place];
        if come_to(space, pass, step) != wanted {
            return Some(place);
        }
    }
    None
}

fn come_to(space: &TreeSpace, pass: &mut TreePass, step: Step) -> Came
    requires { IsAt false space.now.table.shared.table_id space.now.table.shared.key pass.old.number pass.old.kept pass.old.seat }
    ensures { IsAt false space.now.table.shared.table_id space.now.table.shared.key pass.new.number pass.new.kept pass.new.seat }
{
    match step {
        Step::Take => Came::Took(take(space, pass)),
        Step::Retire => Came::Keeps(take_and_retire(space, pass, OBJECT_FORM)),
        Step::Reclaim => reclaim(space, pass),
        Step::TakeAll => Came::Were(take_all(space, pass)),
    }
}

fn take(space: &TreeSpace, pass: &mut TreePass) -> Taken
    requires { IsAt false space.now.table.shared.table_id space.now.table.shared.key pass.old.number pass.old.kept pass.old.seat }
    ensures rests { IsAt false space.now.table.shared.table_id space.now.table.shared.key pass.new.number pass.new.kept pass.new.seat }
    ensures row { TakesRow result pass.old.seat.me pass.new.seat.me }
{
    space.take_row(pass)
}

// How many rows the pass keeps then.
fn take_and_retire(space: &TreeSpace, pass: &mut TreePass, form: u32) -> u32
    requires { IsAt false space.now.table.shared.table_id space.now.table.shared.key pass.old.number pass.old.kept pass.old.seat }
    ensures { IsAt false space.now.table.shared.table_id space.now.table.shared.key pass.new.number pass.new.kept pass.new.seat }
{
    if let Taken::Row(row) = take(space, pass) {
        space.retire(pass, row, form);
    }
    pass.kept()
}

fn reclaim(space: &TreeSpace, pass: &mut TreePass) -> Came
    requires { IsAt false space.now.table.shared.table_id space.now.table.shared.key pass.old.number pass.old.kept pass.old.seat }
    ensures { IsAt false space.now.table.shared.table_id space.now.table.shared.key pass.new.number pass.new.kept pass.new.seat }
{
    let given = space.reclaim(pass);
    if given.lost || given.losses > 0 || given.kept != pass.kept() {
        Came::Lost
    } else {
        Came::Gave(given.freed, given.kept, given.lag, given.epoch)
    }
}

fn take_all(space: &TreeSpace, pass: &mut TreePass) -> Option<u32>
    requires { IsAt false space.now.table.shared.table_id space.now.table.shared.key pass.old.number pass.old.kept pass.old.seat }
    ensures { IsAt false space.now.table.shared.table_id space.now.table.shared.key pass.new.number pass.new.kept pass.new.seat }
{
    let mut seen = [false; 512];
    let mut count = 0_u32;
    for _ in 0..1_000 {
        match take(space, pass) {
            Taken::Row(row) => {
                if row >= 512 || seen[row as usize] {
                    return None;
                }
                seen[row as usize] = true;
                count = count.saturating_add(1);
            }
            Taken::Empty => return Some(count),
            Taken::Lost => {}
            Taken::Worn => return None,
        }
    }
    None
}

fn pin(space: &TreeSpace, pass: &mut TreePass)
    requires { IsAt false space.now.table.shared.table_id space.now.table.shared.key pass.old.number pass.old.kept pass.old.seat }
    ensures { IsAt true space.now.table.shared.table_id space.now.table.shared.key pass.new.number pass.new.kept pass.new.seat }
{
    space.pin(pass);
}

fn unpin(space: &TreeSpace, pass: &mut TreePass)
    requires { IsAt true space.now.table.shared.table_id space.now.table.shared.key pass.old.number pass.old.kept pass.old.seat }
    ensures { IsAt false space.now.table.shared.table_id space.now.table.shared.key pass.new.number pass.new.kept pass.new.seat }
{
    space.unpin(pass);
}

// The first step of a new pass that comes to something else.
fn alone(alloc: Global, starts: Starts, script: &[(Step, Came)]) -> Option<Option<usize>> {
    let mut space = TreeSpace::new(alloc, 384, 1, 1, 120, 0, starts).ok()?;
    let mut pass = space.enroll(alloc).ok()?;
    Some(wrong_step(&space, &mut pass, script))
}

// Scripts of a pass beside another one: before the other one pins itself anew, before it unpins, and behind that; and a script of the other one then.
#[derive(Clone, Copy)]
struct Scripts<'a> {
    before: &'a [(Step, Came)],
    between: &'a [(Step, Came)],
    behind: &'a [(Step, Came)],
    other: &'a [(Step, Came)],
}

// The first step of each script that comes to something else.
fn beside(alloc: Global, scripts: &Scripts<'_>) -> Option<[Option<usize>; 4]> {
    let mut space = TreeSpace::new(alloc, 384, 2, 1, 120, 0, ZERO).ok()?;
    let mut one = space.enroll(alloc).ok()?;
    let mut other = space.enroll(alloc).ok()?;
    pin(&space, &mut other);
    let before = wrong_step(&space, &mut one, scripts.before);
    unpin(&space, &mut other);
    pin(&space, &mut other);
    let between = wrong_step(&space, &mut one, scripts.between);
    unpin(&space, &mut other);
    let behind = wrong_step(&space, &mut one, scripts.behind);
    let last = wrong_step(&space, &mut other, scripts.other);
    Some([before, between, behind, last])
}

#[test]
fn a_kept_row_goes_back_after_two_epochs(rt: HostRuntime) {
    for (epoch, freed, kept, last) in [
        (0, 1, 0, 2),
        ((1 << 62) - 2, 1, 0, 1 << 62),
        ((1 << 62) - 1, 0, 1, 1 << 62),
        (1 << 62, 0, 1, 1 << 62),
    ] {
        let starts = Starts { epoch, ..ZERO };
        let script = [
            (Retire, Keeps(1)),
            (Reclaim, Gave(freed, kept, None, last)),
            (TakeAll, Were(383_u32.checked_sub(kept))),
        ];
        assert_eq!(rt;
            alone(rt.alloc(), starts, &script),
            Some(None),
            "from {epoch}"
        );
    }
}

#[test]
fn rows_are_taken_until_the_tag_is_worn(rt: HostRuntime) {
    let each = [(TakeAll, Were(Some(383)))];
    assert_eq!(rt; alone(rt.alloc(), ZERO, &each), Some(None));
    let kept = [(Retire, Keeps(1)), (TakeAll, Were(Some(382)))];
    assert_eq!(rt; alone(rt.alloc(), ZERO, &kept), Some(None));
    let last = Starts {
        tag: (1 << 40) - 2,
        ..ZERO
    };
    let worn = [(Take, Took(Taken::Row(2))), (Take, Took(Taken::Worn))];
    assert_eq!(rt; alone(rt.alloc(), last, &worn), Some(None));
}

const LAGS: Scripts<'static> = Scripts {
    before: &[
        (Retire, Keeps(1)),
        (Reclaim, Gave(0, 1, Some(2), 1)),
        (Reclaim, Gave(0, 1, Some(2), 1)),
    ],
    between: &[],
    behind: &[(Retire, Keeps(2)), (Reclaim, Gave(2, 0, None, 3))],
    other: &[(Reclaim, Gave(0, 0, None, 3))],
};

// A pass that lags holds up young rows alone.
const YOUNG: Scripts<'static> = Scripts {
    before: &[
        (Retire, Keeps(1)),
        (Retire, Keeps(2)),
        (Retire, Keeps(3)),
        (Reclaim, Gave(0, 3, Some(2), 1)),
        (Retire, Keeps(4)),
    ],
    between: &[
        (Reclaim, Gave(3, 1, Some(2), 2)),
        (Reclaim, Gave(0, 1, Some(2), 2)),
        (Take, Took(Taken::Row(2))),
        (Take, Took(Taken::Row(3))),
        (Take, Took(Taken::Row(4))),
        (Take, Took(Taken::Row(6))),
    ],
    behind: &[],
    other: &[],
};

#[test]
fn a_pass_that_stays_pinned_lags(rt: HostRuntime) {
    for scripts in [LAGS, YOUNG] {
        assert_eq!(rt; beside(rt.alloc(), &scripts), Some([None; 4]));
    }
}

// A step of the epoch, and how many exchanges it lost.
fn advance(space: &TreeSpace, pass: &mut TreePass) -> u32
    requires { IsAt false space.now.table.shared.table_id space.now.table.shared.key pass.old.number pass.old.kept pass.old.seat }
    ensures { IsAt false space.now.table.shared.table_id space.now.table.shared.key pass.new.number pass.new.kept pass.new.seat }
{
    space.advance(pass)
}

fn reuse(space: &TreeSpace, pass: &mut TreePass, like: u32) -> Option<u32>
    requires { IsAt true space.now.table.shared.table_id space.now.table.shared.key pass.old.number pass.old.kept pass.old.seat }
    ensures { IsAt true space.now.table.shared.table_id space.now.table.shared.key pass.new.number pass.new.kept pass.new.seat }
{
    space.reuse_row(pass, like)
}

// Which rows a pass takes again for these forms, once it kept an object, a base and an object, and the epoch moved by two.
fn taken_again(space: &TreeSpace, pass: &mut TreePass, likes: [u32; 4]) -> [Option<u32>; 4]
    requires { IsAt false space.now.table.shared.table_id space.now.table.shared.key pass.old.number pass.old.kept pass.old.seat }
{
    take_and_retire(space, pass, OBJECT_FORM);
    take_and_retire(space, pass, BASE_FORM);
    take_and_retire(space, pass, OBJECT_FORM);
    advance(space, pass);
    advance(space, pass);
    pin(space, pass);
    [
        reuse(space, pass, likes[0]),
        reuse(space, pass, likes[1]),
        reuse(space, pass, likes[2]),
        reuse(space, pass, likes[3]),
    ]
}

#[test]
fn kept_rows_are_taken_again_by_what_they_were(rt: HostRuntime) {
    let (base, object) = (BASE_FORM, OBJECT_FORM);
    for (likes, rows) in [
        (
            [base, base, object, base],
            [Some(3), Some(2), Some(4), None],
        ),
        (
            [object, object, object, base],
            [Some(2), Some(4), Some(3), None],
        ),
    ] {
        let Ok(mut space) = TreeSpace::new(rt.alloc(), 384, 1, 1, 120, 0, ZERO) else {
            panic!(rt; "no memory")
        };
        let Ok(mut pass) = space.enroll(rt.alloc()) else {
            panic!(rt; "no pass")
        };
        assert_eq!(rt; taken_again(&space, &mut pass, likes), rows);
    }
}

// The words 4 to 6 of a row that was taken and written in word 5, where it could be taken.
fn write_and_read(space: &TreeSpace, pass: &mut TreePass, value: u64) -> Option<[u64; 3]>
    requires { IsOf space.now.table.shared.table_id space.now.table.shared.key pass.old.seat }
{
    let Taken::Row(row) = space.take_row(pass) else {
        return None;
    };
    space.write_word(pass, row, 5, value);
    Some([
        space.read_word(pass, row, 4),
        space.read_word(pass, row, 5),
        space.read_word(pass, row, 6),
    ])
}

#[test]
fn a_held_row_is_read_as_it_was_written(rt: HostRuntime) {
    let Ok(mut space) = TreeSpace::new(rt.alloc(), 384, 1, 1, 120, 0, ZERO) else {
        panic!(rt; "no memory")
    };
    let Ok(mut pass) = space.enroll(rt.alloc()) else {
        panic!(rt; "no pass")
    };
    assert_eq!(rt; write_and_read(&space, &mut pass, 7), Some([0, 7, 0]));
}

// Takes a row, writes into it and puts it back, where it can. It answers how many rows the pass holds more.
fn take_and_put(space: &TreeSpace, pass: &mut TreePass, value: u64) -> u32
    requires { IsOf space.now.table.shared.table_id space.now.table.shared.key pass.old.seat }
    ensures { IsOf space.now.table.shared.table_id space.now.table.shared.key pass.new.seat }
{
    match space.take_row(pass) {
        Taken::Row(row) => {
            space.write_word(pass, row, 5, value);
            u32::from(!space.put_row(pass, row))
        }
        _ => 0,
    }
}

// Does so many times, and answers how many rows the pass holds.
fn work(space: &TreeSpace, pass: &mut TreePass) -> u32
    requires { IsOf space.now.table.shared.table_id space.now.table.shared.key pass.old.seat }
{
    let mut held = 0_u32;
    for time in 0..20_000 {
        held = held.saturating_add(take_and_put(space, pass, time));
    }
    held
}

// How many rows two passes hold after each took and put rows on a thread of its own.
fn work_both<T: Threads + Sync>(
    rt: &T,
    space: &TreeSpace,
    one: &mut TreePass,
    two: &mut TreePass,
) -> u32
    requires one { IsOf space.now.table.shared.table_id space.now.table.shared.key one.old.seat }
    requires two { IsOf space.now.table.shared.table_id space.now.table.shared.key two.old.seat }
{
    let (first, second) = join(rt, || work(space, one), || work(space, two));
    first.saturating_add(second)
}

// How many rows two passes hold then, and how many a third one finds free.
fn held_and_free<T: Threads + Sync>(rt: &T, alloc: Global) -> Option<(u32, Option<u32>)> {
    let mut space = TreeSpace::new(alloc, 384, 3, 1, 120, 0, ZERO).ok()?;
    let mut one = space.enroll(alloc).ok()?;
    let mut two = space.enroll(alloc).ok()?;
    let mut third = space.enroll(alloc).ok()?;
    let held = work_both(rt, &space, &mut one, &mut two);
    Some((held, take_all(&space, &mut third)))
}

#[test]
fn no_row_is_lost_between_two_threads(rt: HostRuntime) {
    let Some((held, free)) = held_and_free(&rt, rt.alloc()) else {
        panic!(rt; "no memory")
    };
    assert_eq!(rt; free, 383_u32.checked_sub(held));
}
