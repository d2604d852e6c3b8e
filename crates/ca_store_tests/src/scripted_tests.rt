//! Tables over a store with a script, by rows.
use crate::rows::{CALLS, REFUSED, RUNS, Row, SEQUENCES, TAKES, WALKS};
use crate::script::answers;
use std::alloc::Global;
use std::process::Abort;
use std::test::Fail;

// The commands come to this under the script.
fn assert_answers<R: Abort>(
    rt: &R,
    alloc: Global,
    script: &str,
    commands: &str,
    wanted: &str,
) -> Result<(), Fail> {
    let found = answers(alloc, script, commands)?;
    assert_eq!(rt; found.as_slice(), wanted.as_bytes(), "{script}: {commands}");
    Ok(())
}

// Rows come to what they say.
fn assert_rows<R: Abort>(rt: &R, alloc: Global, rows: &[Row]) -> Result<(), Fail> {
    for (script, commands, wanted) in rows {
        assert_answers(rt, alloc, script, commands, wanted)?;
    }
    Ok(())
}

#[test]
fn take_is_overtaken_by_another_object_under_its_key_and_by_nothing_else(
    rt: HostRuntime,
) -> Result<(), Fail> {
    assert_rows(&rt, rt.alloc(), TAKES.as_slice())
}

#[test]
fn calls_answer_by_the_state_behind_the_edits_before_them(rt: HostRuntime) -> Result<(), Fail> {
    assert_rows(&rt, rt.alloc(), CALLS.as_slice())?;
    assert_rows(&rt, rt.alloc(), WALKS.as_slice())
}

#[test]
fn a_run_is_one_state_and_the_edits_behind_it_show_once_it_is_ended(
    rt: HostRuntime,
) -> Result<(), Fail> {
    assert_rows(&rt, rt.alloc(), RUNS.as_slice())
}

#[test]
fn each_call_takes_one_turn_and_behind_the_last_one_none(rt: HostRuntime) -> Result<(), Fail> {
    assert_rows(&rt, rt.alloc(), SEQUENCES.as_slice())
}

// What a command comes to whose turn says this refusal: the refusal alone with the turn's edits, or what it comes to else.
fn assert_refused<R: Abort>(rt: &R, alloc: Global, word: &str) -> Result<(), Fail> {
    let refused = format!(in alloc; "{word};[{{1,10}},{{3,31}}];")?;
    for (when, command, done) in REFUSED {
        let quiet = if when == "late" { "|| / " } else { "" };
        let script = format!(in alloc; "{quiet}insert {{3,30}}; delete 2|{word}|insert {{3,31}}")?;
        let goes_on = when == "read" || (when != "new" && word == "deep");
        if goes_on {
            assert_answers(rt, alloc, script.as_str(), command, done)?;
        } else {
            assert_answers(rt, alloc, script.as_str(), command, refused.as_str())?;
        }
    }
    Ok(())
}

#[test]
fn a_refused_call_edits_nothing_and_learns_of_all_edits_of_its_turn(
    rt: HostRuntime,
) -> Result<(), Fail> {
    for word in ["busy", "full", "deep", "worn"] {
        assert_refused(&rt, rt.alloc(), word)?;
    }
    Ok(())
}
