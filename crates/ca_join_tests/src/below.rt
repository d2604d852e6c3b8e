//! A pass walked to a base and stopped there, below a route that another one unlinks. Then others edit what the base had. From its cursor the pass reads
//! what the base had as it was joined; an exchange from there is lost, and is won from where another walk leads.
ghost use Rattle.std.specs.Prelude.{◌≡◌, ◌≤◌};
ghost use Rattle.std.specs.Option.{ForSome};
ghost use Rattle.ca_base.specs.Readiness.{IsReady};
ghost use Rattle.ca_join_tests.specs.Objects.{number_code};
ghost use Rattle.ca_join_tests.specs.Stopping.{IsBelow};
ghost use Rattle.ca_node.specs.TreePasses.{tree_of as view_of};
ghost use Rattle.ca_node.specs.TreeView.{Quiet};
ghost use Rattle.ca_replace.specs.Resting.{IsAtRest, knows};
ghost use Rattle.ca_rows.specs.Passes.{OnlyReads, sizes};

use crate::calls::{has, parts_bases, put};
use crate::halts::has_in;
use crate::objects::{key_code, object};
use crate::steps::{NOTHING, join, look};
use crate::trees::{ZERO, tree_of, tuning_of};
use ca_adapt::{Adapted, Tuning};
use ca_base::{Insertion, Keyed, Putting, Target, count, put_at, search};
use ca_model::Outcome;
use ca_node::{Cursor, Spot, TreePass, TreeSpace, load_word, walk};
use ca_replace::{Tree, TreeStore};
use std::alloc::Global;

// Walks to the base to which a key is led, if nothing marked it.
fn go(space: &TreeSpace, pass: &mut TreePass, key: u32) -> Option<Cursor>
    requires ready { IsReady space.now pass.old }
    requires quiet { (view_of pass.old).ranges.own ≡ Quiet }
    requires leaf { (sizes space.now).leaf ≤ 120 }
    ensures below { ForSome result (λ cursor. IsBelow space.now pass.new (number_code key) cursor) }
{
    let cursor = walk(space, pass, Spot::At(&key_code(key)));
    let kind = load_word(space, pass, cursor.base, 2);
    if kind != 0 {
        return None;
    }
    Some(cursor)
}

// The same of a pass that rests.
fn come(space: &TreeSpace, pass: &mut TreePass, key: u32) -> Option<Cursor>
    requires rests { IsAtRest space.now pass.old }
    requires leaf { (sizes space.now).leaf ≤ 120 }
    ensures below { ForSome result (λ cursor. IsBelow space.now pass.new (number_code key) cursor) }
{
    space.pin(pass);
    go(space, pass, key)
}

// Whether the base under the cursor has the key's object with this value.
fn has_at(space: &TreeSpace, pass: &mut TreePass, cursor: Cursor, key: u32, value: u32) -> bool
    requires below { IsBelow space.now pass.old (number_code key) cursor }
    ensures reads { OnlyReads pass.old pass.new }
{
    has_in(space, pass, cursor.base, key, value)
}

// Puts the key's object with this value in the place of the one that the base under the cursor has: whether that was done, and how many exchanges were lost.
fn put_from(
    space: &TreeSpace,
    pass: &mut TreePass,
    cursor: Cursor,
    key: u32,
    value: u32,
) -> Option<(bool, u32)>
    requires below { IsBelow space.now pass.old (number_code key) cursor }
    requires leaf { (sizes space.now).leaf ≤ 120 }
    requires keypos { (sizes space.now).keypos ≡ 1 }
    ensures ready { ForSome result (λ _done. IsReady space.now pass.new) }
    ensures quiet { ForSome result (λ _done. (view_of pass.new).ranges.own ≡ Quiet) }
{
    let object = object(key, value);
    let Ok(place) = search(space, pass, cursor.base, &object[5..10]) else {
        return None;
    };
    let many = count(space, pass, cursor.base);
    let target = Target {
        cursor,
        many,
        statistic: 0,
    };
    let insertion = Insertion {
        keyed: Keyed {
            object: &object,
            key_at: 5,
            key_end: 10,
        },
        why: Putting::Put,
        place: Ok(place),
    };
    let mut row = 0;
    let mut spent = NOTHING;
    let tried = put_at(space, pass, &target, &insertion, &mut row, &mut spent);
    Some((tried.is_ok(), spent.lost))
}

// What the first pass reads and does from its cursor at the base of a key, which the second one joins, looking at the base of another one; and what it
// reads and does from where it comes to then. A store puts the key's object with the value 5 in between, and is asked for it.
#[derive(Clone, Copy, Debug, PartialEq, Eq)]
struct Ends {
    old: bool,
    new: bool,
    put: (bool, u32),
    kept: bool,
    now: bool,
    put_now: (bool, u32),
    done: bool,
}

fn below(
    tree: &Tree,
    first: &mut TreePass,
    second: &mut TreePass,
    store: &mut TreeStore<'_>,
    case: (u32, u8),
    tuning: &Tuning,
) -> Option<Ends>
    requires leaf { tree.now.tuning.leaf ≡ 2 }
    requires tuning { tree.now.tuning ≡ tuning.now }
    requires keypos { (store.old.store.z.keypos ≡ 1) × ((sizes tree.now.space).keypos ≡ 1) }
    requires closed { (knows store.old).run ≡ None }
    requires first { IsAtRest tree.now.space first.old }
    requires second { IsAtRest tree.now.space second.old }
{
    let space = tree.space();
    let (key, by) = case;
    let cursor = come(space, first, key)?;
    let seen = look(space, second, by)?;
    if join(space, second, seen, tuning) != Adapted::Joined
        || put(store, key, 5, 9) != Outcome::Done(())
    {
        return None;
    }
    let old = has_at(space, first, cursor, key, 0);
    let new = has_at(space, first, cursor, key, 5);
    let put = put_from(space, first, cursor, key, 6)?;
    let kept = has(store, key, 5);
    let cursor = go(space, first, key)?;
    let now = has_at(space, first, cursor, key, 5);
    let put_now = put_from(space, first, cursor, key, 6)?;
    let done = has(store, key, 6);
    Some(Ends {
        old,
        new,
        put,
        kept,
        now,
        put_now,
        done,
    })
}

// The key at whose base the first pass is, and the key whose base the second one joins with its sibling: the bases are that of 1, of 2, of 4 and 5, and
// of 6 and 7.
const CASES: [(u32, u8); 4] = [(1, 1), (1, 2), (2, 1), (2, 2)];

// What comes of a case on a new tree.
fn ends_of(alloc: Global, case: (u32, u8)) -> Option<Ends> {
    let tuning = tuning_of((2, 8, 1_000, -1));
    let Ok(mut tree) = tree_of(alloc, 384, 3, tuning, ZERO) else {
        return None;
    };
    let Ok(one) = tree.enroll(alloc) else {
        return None;
    };
    let Ok(mut first) = tree.enroll(alloc) else {
        return None;
    };
    let Ok(mut second) = tree.enroll(alloc) else {
        return None;
    };
    let mut store = TreeStore::new(&tree, one);
    if !parts_bases(&mut store) {
        return None;
    }
    below(&tree, &mut first, &mut second, &mut store, case, &tuning)
}

const READS_OLD: Ends = Ends {
    old: true,
    new: false,
    put: (false, 1),
    kept: true,
    now: true,
    put_now: (true, 0),
    done: true,
};

#[test]
fn a_reader_below_a_route_that_is_unlinked(rt: HostRuntime) {
    for (key, by) in CASES {
        assert_eq!(rt;
            ends_of(rt.alloc(), (key, by)),
            Some(READS_OLD),
            "{key}, {by}"
        );
    }
}
