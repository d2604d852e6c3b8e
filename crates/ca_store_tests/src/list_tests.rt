//! The table of a list beside a table over a plain store: each as its rows say, and both alike on lines that are made from a seed.
ghost use Rattle.ca_ets.specs.Command.{IsContinuation, continuation_of};

use crate::player::{lines_of, play, play_on, put_reply};
use ca_cmd::{Line, generate, show_table};
use ca_ets::{Cont, ListTable};
use ca_model::Plain;
use ca_table::{Table, objects};
use std::alloc::{AllocError, Global};
use std::test::Fail;

// Gives a client's commands to the table of a list, and appends the answers.
fn play_list(
    alloc: Global,
    list: &mut ListTable,
    lines: &[Line],
    into: &mut Vec<u8>,
) -> Result<(), AllocError> {
    let mut cont = Cont::Never;
    for line in lines {
        let reply = list.apply(alloc, &line.cmd, &mut cont)?;
        put_reply(reply, into)?;
    }
    Ok(())
}

fn list_answers(alloc: Global, keypos: u32, lines: &[Line]) -> Result<Vec<u8>, AllocError> {
    if keypos == 0 {
        return Err(AllocError);
    }
    let mut list = ListTable::new(alloc, keypos);
    let mut answers = Vec::new(alloc);
    play_list(alloc, &mut list, lines, &mut answers)?;
    show_table(list.objects(), &mut answers)?;
    Ok(answers)
}

fn plain_answers(alloc: Global, keypos: u32, lines: &[Line]) -> Result<Vec<u8>, AllocError> {
    if keypos == 0 || keypos > 120 {
        return Err(AllocError);
    }
    let mut table = Table::new(Plain::new(alloc, keypos), keypos);
    let mut answers = Vec::new(alloc);
    play(alloc, &mut table, lines, &mut answers)?;
    let objects = objects(alloc, &table.into_store())?;
    show_table(objects.as_slice(), &mut answers)?;
    Ok(answers)
}

// A key place, commands, and what they are answered, with the table.
const ROWS: [(u32, &str, &str); 4] = [
    (
        1,
        "insert {<<>>,7}; insert {[],5}; insert {5,9}; insert {b,3}; insert {{},4}; insert {-7,0}; insert {[[]],6}; insert {aa,2}; insert {5,1}; lookup 5; lookup 6",
        "true;true;true;true;true;true;true;true;true;[{5,1}];[];table\n{-7,0}.\n{5,1}.\n{aa,2}.\n{b,3}.\n{{},4}.\n{[],5}.\n{[[]],6}.\n{<<>>,7}.\nend 8\n",
    ),
    (
        2,
        "insert {1}; insert {1,2}; lookup 2; lookup 1",
        "error badarg;true;[{1,2}];[];table\n{1,2}.\nend 1\n",
    ),
    (
        1,
        "batch * 2; insert {1}; insert {2}; insert {3}; batch * 2; delete 3; more; select_range 2 9 *; take 2; first; next 1; prev 1; update_counter 1 1",
        "'$end_of_table';true;true;true;{[{1},{2}],more};true;'$end_of_table';[{2}];[{2}];1;'$end_of_table';'$end_of_table';error badarg;table\n{1}.\nend 1\n",
    ),
    (
        1,
        "insert {k,1,x}; update_counter k [{2,5},{2,-9,0,0}]; update_element k {3,\"ab\"}; insert_new {k}; member k; last; more; select []",
        "true;[6,0];true;false;true;k;error badarg;[];table\n{k,0,[97,98]}.\nend 1\n",
    ),
];

#[test]
fn both_answer_as_the_rows_say(rt: HostRuntime) -> Result<(), Fail> {
    let alloc = rt.alloc();
    for (keypos, commands, wanted) in ROWS {
        let lines = lines_of(alloc, commands)?;
        let listed = list_answers(alloc, keypos, lines.as_slice())?;
        assert_eq!(rt; listed.as_slice(), wanted.as_bytes(), "list: {commands}");
        let found = plain_answers(alloc, keypos, lines.as_slice())?;
        assert_eq!(rt; found.as_slice(), wanted.as_bytes(), "store: {commands}");
    }
    Ok(())
}

// An object's code may have 1,000 bytes, and so may a key's; a binary alone is no object.
#[test]
fn what_does_not_fit_is_refused_by_both(rt: HostRuntime) -> Result<(), Fail> {
    let alloc = rt.alloc();
    for (count, wanted) in [
        (992, "true;true;true;error badarg;table\nend 0\n"),
        (993, "error size;false;true;error badarg;table\nend 0\n"),
        (997, "error size;false;true;error badarg;table\nend 0\n"),
        (
            998,
            "error size;error size;error size;error badarg;table\nend 0\n",
        ),
    ] {
        let x = "X".repeat(alloc, count)?;
        let commands = format!(in alloc;
            "insert {{<<\"{x}\">>}}; member <<\"{x}\">>; delete <<\"{x}\">>; insert <<\"{x}\">>"
        )?;
        let lines = lines_of(alloc, commands.as_str())?;
        let listed = list_answers(alloc, 1, lines.as_slice())?;
        assert_eq!(rt; listed.as_slice(), wanted.as_bytes());
        let found = plain_answers(alloc, 1, lines.as_slice())?;
        assert_eq!(rt; found.as_slice(), wanted.as_bytes());
    }
    Ok(())
}

// The lines of four clients, one client after the other.
#[test]
fn both_answer_alike_on_lines_from_a_seed(rt: HostRuntime) -> Result<(), Fail> {
    let alloc = rt.alloc();
    let mut list = ListTable::new(alloc, 1);
    let mut table = Table::new(Plain::new(alloc, 1), 1);
    let mut listed = Vec::new(alloc);
    let mut found = Vec::new(alloc);
    for client in 1..5 {
        let lines = generate(alloc, 7, client, 2000)?.to_vec(alloc)?;
        play_list(alloc, &mut list, lines.as_slice(), &mut listed)?;
        play(alloc, &mut table, lines.as_slice(), &mut found)?;
    }
    let store = table.into_store();
    assert!(rt; !store.is_empty());
    show_table(list.objects(), &mut listed)?;
    show_table(objects(alloc, &store)?.as_slice(), &mut found)?;
    assert!(rt; listed.as_slice() == found.as_slice());
    Ok(())
}

// The answers to a client's next commands.
fn answered(
    alloc: Global,
    table: &mut Table<Plain>,
    cont: &mut Cont,
    commands: &str,
) -> Result<Vec<u8>, AllocError>
    requires { IsContinuation (continuation_of cont.old) }
    ensures { IsContinuation (continuation_of cont.new) }
{
    let lines = lines_of(alloc, commands)?;
    let mut answers = Vec::new(alloc);
    play_on(alloc, table, cont, lines.as_slice(), &mut answers)?;
    Ok(answers)
}

// One client's commands with what they are answered, and then another client's.
const TURNS: [(&str, &str, &str, &str); 3] = [
    (
        "insert {1,10}; insert {2,20}; insert {3,30}; insert {4,40}; insert {5,50}; batch [{{'_','$1'},[],['$1']}] 2",
        "true;true;true;true;true;{[10,20],more};",
        "batch [{{'_','$1'},[{'>','$1',20}],['$1']}] 1; delete 2; delete 4; insert {6,60}; insert {0,0}",
        "{[30],more};true;true;true;true;",
    ),
    ("more", "{[30,50],more};", "more", "{[50],more};"),
    (
        "more",
        "{[60],'$end_of_table'};",
        "more; more",
        "{[60],more};'$end_of_table';",
    ),
];

#[test]
fn two_clients_take_batches_in_turn(rt: HostRuntime) -> Result<(), Fail> {
    let alloc = rt.alloc();
    let mut table = Table::new(Plain::new(alloc, 1), 1);
    let mut one = Cont::Never;
    let mut two = Cont::Never;
    for (first, wanted, second, other) in TURNS {
        let found = answered(alloc, &mut table, &mut one, first)?;
        assert_eq!(rt; found.as_slice(), wanted.as_bytes(), "{first}");
        let found = answered(alloc, &mut table, &mut two, second)?;
        assert_eq!(rt; found.as_slice(), other.as_bytes(), "{second}");
    }
    Ok(())
}
