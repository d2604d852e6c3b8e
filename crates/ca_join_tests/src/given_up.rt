//! A range that has spent its budget gives up, with some bases marked. It is in nobody's way then: whoever exchanges such a base wins at once, and helps
//! nothing.
ghost use Rattle.std.specs.Prelude.{◌≤◌};

use crate::calls::{has, parts_bases, put, range};
use crate::trees::{ZERO, tree_of, tuning_of};
use ca_model::{Edge, Outcome, Spent};
use ca_replace::TreeStore;
use std::alloc::Global;

// What a range with this budget comes to on a new tree; whether two of its bases are exchanged then in one turn each; and what another range comes to.
fn ends_of(alloc: Global, budget: u32) -> Option<(Outcome<bool>, bool, Outcome<bool>)>
    requires { 1 ≤ budget }
{
    let Ok(mut tree) = tree_of(alloc, 384, 2, tuning_of((2, 8, 1_000, -1)), ZERO) else {
        return None;
    };
    let Ok(one) = tree.enroll(alloc) else {
        return None;
    };
    let Ok(two) = tree.enroll(alloc) else {
        return None;
    };
    let mut store = TreeStore::new(&tree, one);
    let mut other = TreeStore::new(&tree, two);
    if !parts_bases(&mut store) {
        return None;
    }
    let gave_up = range(&mut other, Edge::Open, Edge::Open, budget);
    let puts = put(&mut store, 1, 5, 1) == Outcome::Done(())
        && put(&mut store, 6, 5, 1) == Outcome::Done(());
    let are_there = has(&mut other, 1, 5) && has(&mut other, 6, 5);
    let whole = range(&mut other, Edge::Open, Edge::Open, 5);
    Some((gave_up, puts && are_there, whole))
}

// A range of all passes one base for each turn of its budget, from the lowest on, and needs one turn more.
#[test]
fn a_range_that_gave_up_is_in_nobodys_way(rt: HostRuntime) {
    for budget in 1..5_u32 {
        let spent = Spent {
            lost: 0,
            helped: 0,
            passed: budget,
        };
        let ends = Some((Outcome::Busy(spent), true, Outcome::Done(true)));
        assert!(rt; ends_of(rt.alloc(), budget) == ends, "{budget}");
    }
}
