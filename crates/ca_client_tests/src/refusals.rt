//! Clients over a store that refuses calls by a script.
use crate::files::played_open;
use ca_model::{Counter, FullCause, OrderedStore};
use ca_table::Table;
use ca_test_store::{Refusal, Scripted, Turn};
use std::alloc::{AllocError, Global};
use std::sync::Wait;
use std::test::Fail;

// There is no room, and a pass lags; and none lags.
const LAGGING: Refusal = Refusal::Full(FullCause {
    kept: 64,
    lag: Some(2),
});

const FULL: Refusal = Refusal::Full(FullCause { kept: 0, lag: None });

// A table over an empty store that refuses so many calls so.
fn table_of(alloc: Global, calls: u32, refusal: Refusal) -> Result<Table<Scripted>, AllocError> {
    let mut store = Scripted::new(alloc, 1);
    for _ in 0..calls {
        store.add_turn(Turn::new(Vec::new(alloc), Some(refusal), Vec::new(alloc)))?;
    }
    let mut store = store;
    store.close_run();
    let keypos = store.keypos();
    Ok(Table::new(store, keypos))
}

// What these commands are answered where the first calls are refused so, and the budget of the last call.
fn answered<R: Wait>(
    rt: &R,
    alloc: Global,
    calls: u32,
    refusal: Refusal,
    commands: &str,
) -> Result<(Vec<u8>, u32), AllocError> {
    let mut table = table_of(alloc, calls, refusal)?;
    let answers = played_open(rt, alloc, &mut table, commands)?;
    Ok((answers, table.into_store().last_budget()))
}

#[test]
fn a_busy_command_is_played_again_with_twice_the_budget(rt: HostRuntime) -> Result<(), Fail> {
    let mut budget = 64_u32;
    for calls in 0..31 {
        let (answers, last) = answered(&rt, rt.alloc(), calls, Refusal::Busy, "insert {1}")?;
        assert_eq!(rt; answers.as_slice(), b"true;".as_slice(), "{calls}");
        assert_eq!(rt; last, budget, "{calls}");
        if budget < 1 << 31 {
            budget *= 2;
        }
    }
    assert_eq!(rt; budget, 1 << 31);
    Ok(())
}

#[test]
fn each_command_begins_with_the_first_budget(rt: HostRuntime) -> Result<(), Fail> {
    let (answers, last) = answered(&rt, rt.alloc(), 7, Refusal::Busy, "insert {1};insert {2}")?;
    assert_eq!(rt; answers.as_slice(), b"true;true;".as_slice());
    assert_eq!(rt; last, 64);
    Ok(())
}

#[test]
fn a_command_without_room_is_refused_at_once_where_none_lags(rt: HostRuntime) -> Result<(), Fail> {
    let commands = "insert {1};insert {2};insert {3};select *";
    let (answers, _) = answered(&rt, rt.alloc(), 2, FULL, commands)?;
    let wanted = b"refused full;refused full;true;[{3}];".as_slice();
    assert_eq!(rt; answers.as_slice(), wanted);
    Ok(())
}

#[test]
fn a_command_without_room_is_played_again_where_one_lags(rt: HostRuntime) -> Result<(), Fail> {
    for calls in [1, 3, 40] {
        let (answers, last) = answered(&rt, rt.alloc(), calls, LAGGING, "insert {1};select *")?;
        assert_eq!(rt; answers.as_slice(), b"true;[{1}];".as_slice(), "{calls}");
        assert_eq!(rt; last, 64, "{calls}");
    }
    Ok(())
}

#[test]
fn a_command_waits_for_room_a_thousand_times(rt: HostRuntime) -> Result<(), Fail> {
    let commands = "insert {1};insert {2};select *";
    let (answers, _) = answered(&rt, rt.alloc(), 1_000, LAGGING, commands)?;
    assert_eq!(rt; answers.as_slice(), b"true;true;[{1},{2}];".as_slice());
    let (answers, _) = answered(&rt, rt.alloc(), 1_001, LAGGING, commands)?;
    assert_eq!(rt; answers.as_slice(), b"refused full;true;[{2}];".as_slice());
    Ok(())
}

#[test]
fn want_of_levels_and_worn_counters_are_answers(rt: HostRuntime) -> Result<(), Fail> {
    let commands = "insert {1};insert {2};select *";
    let (answers, _) = answered(&rt, rt.alloc(), 1, Refusal::Deep(7), commands)?;
    assert_eq!(rt; answers.as_slice(), b"refused deep;true;[{2}];".as_slice());
    let worn = Refusal::Worn(Counter::Epoch);
    let (answers, _) = answered(&rt, rt.alloc(), 1, worn, commands)?;
    assert_eq!(rt; answers.as_slice(), b"refused worn;true;[{2}];".as_slice());
    Ok(())
}
