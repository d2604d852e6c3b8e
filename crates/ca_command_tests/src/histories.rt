//! Histories by hand: what is explained, and what isn't.
use crate::merges::{Merges, Side, explained};
use crate::player::{ALL, lines_of};
use ca_ets::ListTable;
use ca_text::put;
use std::alloc::{AllocError, Global};
use std::test::Fail;

// The clients' lines with their answers, the table in the end, and whether a merge explains them. Clients are parted by ` | `, lines by `; `, and `*`
// stands for the match specification of all objects.
type Row = (&'static str, &'static str, bool);

const ROWS: [Row; 38] = [
    (
        "insert {1,a} -> true; lookup 1 -> [{1,b}] | insert {1,b} -> true",
        "[{1,b}]",
        true,
    ),
    (
        "insert {1,a} -> true; lookup 1 -> [{1,b}] | insert {1,b} -> true",
        "[{1,a}]",
        false,
    ),
    (
        "insert {1,a} -> true; lookup 1 -> [{1,c}] | insert {1,b} -> true",
        "[{1,b}]",
        false,
    ),
    (
        "insert {1,a} -> true; insert {2,b} -> true | select * -> [{1,a}]",
        "[{1,a},{2,b}]",
        true,
    ),
    (
        "insert {1,a} -> true; insert {2,b} -> true | select * -> [{2,b}]",
        "[{1,a},{2,b}]",
        false,
    ),
    (
        "insert {1,a} -> true; insert {2,b} -> true | select * -> [{1,a},{2,b}]",
        "[{1,a}]",
        false,
    ),
    (
        "insert_new {1,a} -> true | insert_new {1,b} -> false",
        "[{1,a}]",
        true,
    ),
    (
        "insert_new {1,a} -> true | insert_new {1,b} -> true",
        "[{1,a}]",
        false,
    ),
    (
        "insert_new {1,a} -> false | insert_new {1,b} -> false",
        "[]",
        false,
    ),
    (
        "insert {1,a} -> true; delete 1 -> true | first -> 1; first -> '$end_of_table'",
        "[]",
        true,
    ),
    (
        "insert {1,a} -> true; delete 1 -> true; first -> 1 | insert {2,b} -> true",
        "[{2,b}]",
        false,
    ),
    (
        "insert {1,a} -> true; delete 1 -> true | first -> '$end_of_table'; first -> 1; first -> '$end_of_table'",
        "[]",
        true,
    ),
    (
        "insert {1,a} -> true; delete 1 -> true | first -> 1; first -> '$end_of_table'; last -> 1",
        "[]",
        false,
    ),
    (
        "insert {1,a} -> true; take 1 -> [] | take 1 -> [{1,a}]",
        "[]",
        true,
    ),
    (
        "insert {1,a} -> true; take 1 -> [{1,a}] | take 1 -> [{1,a}]",
        "[]",
        false,
    ),
    (
        "insert {1,0} -> true; update_counter 1 {2,1} -> 2 | update_counter 1 {2,1} -> 1",
        "[{1,2}]",
        true,
    ),
    (
        "insert {1,0} -> true; update_counter 1 {2,1} -> 1 | update_counter 1 {2,1} -> 1",
        "[{1,1}]",
        false,
    ),
    (
        "insert {1,0} -> true; update_counter 1 {2,1} -> 1 | update_counter 1 {2,1} -> error badarg",
        "[{1,1}]",
        true,
    ),
    (
        "insert {1,a} -> true; update_element 1 {2,b} -> true; lookup 1 -> [{1,c}] | update_element 1 {2,c} -> true",
        "[{1,c}]",
        true,
    ),
    (
        "insert {1,a} -> true; update_element 1 {2,b} -> true; lookup 1 -> [{1,c}] | update_element 1 {2,c} -> false",
        "[{1,c}]",
        false,
    ),
    (
        "insert {1,a} -> true; insert {2,b} -> true; insert {3,c} -> true; batch * 1 -> {[{1,a}],more}; more -> {[{3,c}],more} | delete 2 -> true",
        "[{1,a},{3,c}]",
        true,
    ),
    (
        "insert {1,a} -> true; insert {2,b} -> true; insert {3,c} -> true; batch * 1 -> {[{1,a}],more}; more -> {[{3,c}],more} | delete 3 -> true",
        "[{1,a},{2,b}]",
        false,
    ),
    (
        "insert {1,a} -> true; insert {2,b} -> true; batch * 1 -> {[{1,a}],more}; more -> {[{2,b}],more} | batch * 1 -> {[{1,a}],more}; more -> {[{2,b}],more}",
        "[{1,a},{2,b}]",
        true,
    ),
    (
        "insert {1,a} -> true; insert {2,b} -> true; batch * 1 -> {[{1,a}],more}; more -> {[{2,b}],more} | batch * 1 -> {[{1,a}],more}; more -> {[{1,a}],more}",
        "[{1,a},{2,b}]",
        false,
    ),
    (
        "insert {1,a} -> true; insert {2,b} -> true | more -> error badarg; batch * 2 -> {[{1,a}],'$end_of_table'}; more -> '$end_of_table'",
        "[{1,a},{2,b}]",
        true,
    ),
    (
        "insert {1,a} -> true; insert {1,b} -> true | select * -> [{1,a}]; select * -> [{1,b}]",
        "[{1,b}]",
        true,
    ),
    (
        "insert {1,a} -> true; insert {1,b} -> true | select * -> [{1,b}]; select * -> [{1,a}]",
        "[{1,b}]",
        false,
    ),
    (
        "insert {1,a} -> true; insert {2,a} -> true; insert {1,b} -> true; insert {2,b} -> true | select * -> [{1,b},{2,a}]",
        "[{1,b},{2,b}]",
        true,
    ),
    (
        "insert {1,a} -> true; insert {2,a} -> true; insert {1,b} -> true; insert {2,b} -> true | select * -> [{1,a},{2,b}]",
        "[{1,b},{2,b}]",
        false,
    ),
    (
        "insert {1,a} -> true | insert {2,b} -> true | select * -> [{1,a}] | select_range 1 2 * -> [{1,a},{2,b}]",
        "[{1,a},{2,b}]",
        true,
    ),
    (
        "insert {1,a} -> true | insert {2,b} -> true | select * -> [{1,a}] | select_range 1 2 * -> [{2,b}]",
        "[{1,a},{2,b}]",
        false,
    ),
    (
        "insert {1,a} -> true; insert {2,b} -> true; insert {3,c} -> true; next 1 -> 3; prev 3 -> 1 | delete 2 -> true",
        "[{1,a},{3,c}]",
        true,
    ),
    (
        "insert {1,a} -> true; insert {2,b} -> true; insert {3,c} -> true; next 1 -> 3; prev 3 -> 2 | delete 2 -> true",
        "[{1,a},{3,c}]",
        false,
    ),
    (
        "insert {1,a} -> true; insert {2,b} -> true; insert {3,c} -> true | last -> 3; select_range 1 9 * -> [{1,a},{3,c}]",
        "[{1,a},{2,b},{3,c}]",
        false,
    ),
    (
        "insert {1,a} -> true | lookup 1 -> [{1,a}]; lookup 1 -> [] | delete 1 -> true; member 1 -> false",
        "[]",
        true,
    ),
    (
        "insert {1,a} -> true | lookup 1 -> [{1,a}]; lookup 1 -> [] | delete 1 -> true; member 1 -> true",
        "[]",
        false,
    ),
    (
        "insert {1,a} -> true; delete 2 -> true | insert {2,b} -> true; delete 1 -> true | select * -> []",
        "[]",
        true,
    ),
    (
        "insert {1,a} -> true; lookup 2 -> [] | insert {2,b} -> true; lookup 1 -> []",
        "[{1,a},{2,b}]",
        false,
    ),
];

// A client's part of a row.
fn side_of(alloc: Global, text: &str) -> Result<Side, AllocError> {
    let mut file = Vec::new(alloc);
    let mut answers = Vec::new(alloc);
    for line in text.split("; ") {
        let Some((command, answer)) = line.split_once(" -> ") else {
            return Err(AllocError);
        };
        for byte in command.bytes() {
            match byte {
                b'*' => put(ALL, &mut file)?,
                _ => file.push(byte)?,
            }
        }
        file.push(b'\n')?;
        let mut copy = Vec::new(alloc);
        put(answer.as_bytes(), &mut copy)?;
        answers.push(copy)?;
    }
    let lines = lines_of(alloc, file.as_slice())?;
    Ok(Side { lines, answers })
}

fn is_explained(alloc: Global, clients: &str, end: &str) -> Result<bool, AllocError> {
    let mut sides = Vec::new(alloc);
    for client in clients.split(" | ") {
        sides.push(side_of(alloc, client)?)?;
    }
    let start = ListTable::new(alloc, 1);
    let table = explained(alloc, &start, sides.as_slice(), end.as_bytes(), Merges::All)?;
    Ok(table.is_some())
}

#[test]
fn only_what_one_history_allows_is_explained(rt: HostRuntime) -> Result<(), Fail> {
    let alloc = rt.alloc();
    for (clients, end, wanted) in ROWS {
        let found = is_explained(alloc, clients, end)?;
        assert_eq!(rt; found, wanted, "{clients}, then {end}");
    }
    Ok(())
}
