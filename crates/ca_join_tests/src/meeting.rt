//! Two passes, and an attempt of the first one to join two bases. It stops between its steps, and the second one makes a step.
ghost use Rattle.std.specs.Prelude.{◌≡◌, ◌+◌, ◌*◌, ◌≤◌, ℕ};
ghost use Rattle.std.specs.Option.{ForSome};
ghost use Rattle.ca_join_tests.specs.Stopping.{HasFound};
ghost use Rattle.ca_node.specs.JoinSteps.{join_state};
ghost use Rattle.ca_replace.specs.Resting.{IsAtRest};
ghost use Rattle.ca_rows.specs.Passes.{sizes};

use crate::calls::{keys_in, parts_bases};
use crate::drawing::places;
use crate::steps::{NOTHING, join, look, secure, stop, unlink};
use crate::trees::{ZERO, tree_of, tuning_of};
use ca_adapt::{Adapted, Attempt, Finish, Tuning, Why, finish_join, fork_at};
use ca_model::Spent;
use ca_node::{JoinState, Spot, TreePass, TreeSpace, abort_join, adapted, load_join, walk};
use ca_replace::{Tree, TreeStore};
use std::alloc::Global;

// The attempt that is secured.
fn secured_in(state: JoinState) -> Option<u64>
    ensures { (word : ℕ) → state ≡ join_state word → ForSome result (λ number. word ≡ 4 * number + 2) }
{
    match state {
        JoinState::Secured(number) => Some(number),
        _ => None,
    }
}

// The attempt that is prepared.
fn prepared_in(state: JoinState) -> Option<u64>
    ensures { (word : ℕ) → state ≡ join_state word → ForSome result (λ number. word ≡ 4 * number + 1) }
{
    match state {
        JoinState::Prep(number) => Some(number),
        _ => None,
    }
}

// Finds the attempt to join the base to which a key is led that is prepared.
fn find(space: &TreeSpace, pass: &mut TreePass, key: u8) -> Option<Attempt>
    requires rests { IsAtRest space.now pass.old }
    ensures found { ForSome result (λ x. HasFound space.now pass.new x) }
{
    space.pin(pass);
    let cursor = walk(space, pass, Spot::At(&[0x24, 1, 0, 0, key]));
    let Some(fork) = fork_at(cursor) else {
        return None;
    };
    let route = fork.route;
    let Some(number) = prepared_in(load_join(space, pass, route)) else {
        return None;
    };
    Some(Attempt { route, number })
}

// Carries out the attempt to join the base to which a key is led that is secured. What it comes to, and what is spent.
fn finish(space: &TreeSpace, pass: &mut TreePass, key: u8) -> Option<(Finish, Spent)>
    requires rests { IsAtRest space.now pass.old }
    requires leaf { (sizes space.now).leaf ≤ 120 }
{
    space.pin(pass);
    let cursor = walk(space, pass, Spot::At(&[0x24, 1, 0, 0, key]));
    let Some(fork) = fork_at(cursor) else {
        return None;
    };
    let route = fork.route;
    let Some(number) = secured_in(load_join(space, pass, route)) else {
        return None;
    };
    let mut spent = NOTHING;
    let attempt = Attempt { route, number };
    let finish = finish_join(space, pass, attempt, fork.above, false, &mut spent);
    Some((finish, spent))
}

// What the second pass is told.
#[derive(Clone, Copy, Debug, PartialEq, Eq)]
enum Told {
    /// What carrying the attempt out comes to, and what is spent.
    Finish(Finish, Spent),
    /// Whether its exchange gave the attempt up.
    Gave(bool),
    /// What its own try to join comes to.
    Adapted(Adapted),
}

// What it is told, and whether the first one's exchange that is to unlink the route won, and how many it lost, if it secured its attempt.
type Ends = (Told, Option<(bool, u32)>);

// What the second pass does.
#[derive(Clone, Copy)]
enum Meets {
    /// It carries out what the first one secured.
    CarriesOut,
    /// It gives up what the first one prepared.
    GivesUp,
    /// It is to give that up, as it is secured already.
    IsLate,
    /// It looked at the base before the first one began, and is to join it, too, as the attempt is secured.
    Tries,
}

fn carried_out(tree: &Tree, first: &mut TreePass, second: &mut TreePass, key: u8) -> Option<Ends>
    requires leaf { tree.now.tuning.leaf ≡ 2 }
    requires first { IsAtRest tree.now.space first.old }
    requires second { IsAtRest tree.now.space second.old }
{
    let space = tree.space();
    let stopped = stop(space, first, key, 2)?;
    let uniting = secure(space, first, stopped)?;
    let (finish, spent) = finish(space, second, key)?;
    Some((
        Told::Finish(finish, spent),
        Some(unlink(space, first, uniting)),
    ))
}

fn given_up(tree: &Tree, first: &mut TreePass, second: &mut TreePass, key: u8) -> Option<Ends>
    requires leaf { tree.now.tuning.leaf ≡ 2 }
    requires first { IsAtRest tree.now.space first.old }
    requires second { IsAtRest tree.now.space second.old }
{
    let space = tree.space();
    let stopped = stop(space, first, key, 2)?;
    let attempt = find(space, second, key)?;
    let gave = abort_join(space, second, attempt.route, attempt.number);
    let won = match secure(space, first, stopped) {
        Some(uniting) => Some(unlink(space, first, uniting)),
        None => None,
    };
    Some((Told::Gave(gave), won))
}

fn is_late(tree: &Tree, first: &mut TreePass, second: &mut TreePass, key: u8) -> Option<Ends>
    requires leaf { tree.now.tuning.leaf ≡ 2 }
    requires first { IsAtRest tree.now.space first.old }
    requires second { IsAtRest tree.now.space second.old }
{
    let space = tree.space();
    let stopped = stop(space, first, key, 2)?;
    let attempt = find(space, second, key)?;
    let uniting = secure(space, first, stopped)?;
    let gave = abort_join(space, second, attempt.route, attempt.number);
    Some((Told::Gave(gave), Some(unlink(space, first, uniting))))
}

fn tries(
    tree: &Tree,
    first: &mut TreePass,
    second: &mut TreePass,
    key: u8,
    tuning: &Tuning,
) -> Option<Ends>
    requires leaf { tree.now.tuning.leaf ≡ 2 }
    requires tuning { tree.now.tuning ≡ tuning.now }
    requires first { IsAtRest tree.now.space first.old }
    requires second { IsAtRest tree.now.space second.old }
{
    let space = tree.space();
    let seen = look(space, second, key)?;
    let stopped = stop(space, first, key, 2)?;
    let uniting = secure(space, first, stopped)?;
    let adapted = join(space, second, seen, tuning);
    Some((Told::Adapted(adapted), Some(unlink(space, first, uniting))))
}

fn meet(
    tree: &Tree,
    first: &mut TreePass,
    second: &mut TreePass,
    key: u8,
    meets: Meets,
    tuning: &Tuning,
) -> Option<Ends>
    requires leaf { tree.now.tuning.leaf ≡ 2 }
    requires tuning { tree.now.tuning ≡ tuning.now }
    requires first { IsAtRest tree.now.space first.old }
    requires second { IsAtRest tree.now.space second.old }
{
    match meets {
        Meets::CarriesOut => carried_out(tree, first, second, key),
        Meets::GivesUp => given_up(tree, first, second, key),
        Meets::IsLate => is_late(tree, first, second, key),
        Meets::Tries => tries(tree, first, second, key, tuning),
    }
}

const HELPED: Spent = Spent {
    lost: 0,
    helped: 1,
    passed: 0,
};

const TAKEN: Adapted = Adapted::NotJoined(Why::Taken);

// The key whose base the first pass is to join, what the second one does and is told, what the first one comes to, and how many joins each of both carried out.
type Case = (u8, Meets, Told, Option<(bool, u32)>, (u64, u64));

// The bases are that of 1, of 2, of 4 and 5, and of 6 and 7.
const CASES: &[Case] = &[
    (
        1,
        Meets::CarriesOut,
        Told::Finish(Finish::Done, HELPED),
        Some((false, 1)),
        (0, 1),
    ),
    (
        2,
        Meets::CarriesOut,
        Told::Finish(Finish::Done, HELPED),
        Some((false, 1)),
        (0, 1),
    ),
    (1, Meets::GivesUp, Told::Gave(true), None, (0, 0)),
    (2, Meets::GivesUp, Told::Gave(true), None, (0, 0)),
    (1, Meets::IsLate, Told::Gave(false), Some((true, 0)), (1, 0)),
    (2, Meets::IsLate, Told::Gave(false), Some((true, 0)), (1, 0)),
    (
        1,
        Meets::Tries,
        Told::Adapted(TAKEN),
        Some((true, 0)),
        (1, 0),
    ),
    (
        2,
        Meets::Tries,
        Told::Adapted(TAKEN),
        Some((true, 0)),
        (1, 0),
    ),
];

// What both are told on a new tree, how many joins each carried out, the keys that there are then, and whether the bases of 1 and 2 are one, at the level 1.
type Came = (Ends, (u64, u64), u8, (bool, bool));

fn came_of(alloc: Global, key: u8, meets: Meets) -> Option<Came> {
    let tuning = tuning_of((2, 8, 1_000, -1));
    let Ok(mut tree) = tree_of(alloc, 384, 4, tuning, ZERO) else {
        return None;
    };
    let Ok(one) = tree.enroll(alloc) else {
        return None;
    };
    let Ok(mut first) = tree.enroll(alloc) else {
        return None;
    };
    let Ok(mut second) = tree.enroll(alloc) else {
        return None;
    };
    let Ok(mut other) = tree.enroll(alloc) else {
        return None;
    };
    let mut store = TreeStore::new(&tree, one);
    if !parts_bases(&mut store) {
        return None;
    }
    let ends = meet(&tree, &mut first, &mut second, key, meets, &tuning)?;
    let (_, by_first) = adapted(&first);
    let (_, by_second) = adapted(&second);
    let [(one, level), (two, _), _, _, _, _, _] = places(tree.space(), &mut other);
    let place = (one == two, level == 1);
    Some((ends, (by_first, by_second), keys_in(&mut store), place))
}

#[test]
fn two_passes_meet_at_a_join(rt: HostRuntime) {
    for row in CASES {
        let (key, meets, told, won, joins) = *row;
        let place = (joins != (0, 0), joins != (0, 0));
        let came = Some(((told, won), joins, 0b1111_0110, place));
        assert_eq!(rt; came_of(rt.alloc(), key, meets), came, "{key}");
    }
}
