//! The program of docs/LIBRARY.md: a table over a plain store.
use ca_ets::Reply;
use ca_model::{Outcome, Plain};
use ca_table::Table;
use ca_term::{Kind, TermFault, Terms, atom, int, tuple};
use std::alloc::Global;
use std::test::Fail;

// How many turns a call may lose to others.
const BUDGET: u32 = 1;

// The age that a table has under a name, once it was put there and the person became a year older.
fn older(alloc: Global, name: &str, age: i64) -> Result<Option<i64>, TermFault> {
    let mut table = Table::new(Plain::new(alloc, 1), 1);
    let mut person = Terms::new(alloc);
    person.push(atom(alloc, name)?)?;
    person.push(int(age))?;
    let _inserted = table.insert(&tuple(person)?, BUDGET)?;
    let counted = table.update_counter(alloc, &atom(alloc, name)?, &int(1), BUDGET)?;
    let Outcome::Done(Reply::Value(value)) = counted else {
        return Ok(None);
    };
    match value.kind() {
        Kind::Int(older) => Ok(Some(older)),
        _ => Ok(None),
    }
}

#[test]
fn a_person_becomes_a_year_older(rt: HostRuntime) -> Result<(), Fail> {
    let found = older(rt.alloc(), "ann", 41)?;
    assert_eq!(rt; found, Some(42));
    Ok(())
}
