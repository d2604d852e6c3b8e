//! Objects with other elements.
ghost use Rattle.std.specs.Prelude.{◌≡◌, ◌≤ℤ◌, IfErr, IfOk, map, pos as whole};
ghost use Rattle.ca_term.specs.Add.{addition_of};
ghost use Rattle.ca_term.specs.Updates.{count, object_of, update_of_counters, update_of_element};
ghost use Rattle.ca_ets.specs.Changed.{IsChanged, IsCount};

use crate::command::Fault;
use crate::object::{copied, fits};
use crate::update::{elements, integer};
use ca_term::{Add, Term, Terms, int, tuple};
use std::alloc::Global;

// Why there is no changed object.
pub(crate) enum Stop {
    Refused(Fault),
    NoMemory,
}

// The object after these operations, each on what the one before left, and the value of each.
pub(crate) fn counters(
    alloc: Global,
    keypos: u32,
    object: &Term,
    adds: &[Add],
) -> Result<(Term, Vec<i64>), Stop>
    ensures { IsChanged (λ new. (new.0, new.1.items)) (update_of_counters keypos object.now (map addition_of adds.now)) result }
{
    let mut items = copies(alloc, elements(object))?;
    let mut values = Vec::new(alloc);
    for add in adds {
        let value = match count(&mut items, keypos, add) {
            Ok(value) => value,
            Err(stop) => return Err(stop),
        };
        if values.push(value).is_err() {
            return Err(Stop::NoMemory);
        }
    }
    Ok((object_of(items)?, values))
}

// The object with another element at this position.
pub(crate) fn with_element(
    alloc: Global,
    object: &Term,
    pos: i64,
    value: &Term,
) -> Result<Term, Stop>
    requires { whole 1 ≤ℤ pos }
    ensures { IsChanged (λ new. new) (update_of_element object.now pos value.now) result }
{
    let mut items = copies(alloc, elements(object))?;
    let place = pos as usize - 1;
    if place >= items.len() {
        return Err(Stop::Refused(Fault::BadArg));
    }
    items.set(place, copy(alloc, value)?);
    object_of(items)
}

// Carries out one operation on the elements of an object: the value that it stores.
fn count(items: &mut Terms, keypos: u32, add: &Add) -> Result<i64, Stop>
    ensures { IsCount (count keypos items.old.items (addition_of add.now)) result items.new.items }
{
    let Some(place) = add.place(keypos, items.len()) else {
        return Err(Stop::Refused(Fault::BadArg));
    };
    let Some(number) = integer(items.at(place)) else {
        return Err(Stop::Refused(Fault::BadArg));
    };
    let Ok(value) = i64::try_from(add.value(number)) else {
        return Err(Stop::Refused(Fault::Range));
    };
    items.set(place, int(value));
    Ok(value)
}

// Copies of terms.
fn copies(alloc: Global, originals: &[Term]) -> Result<Terms, Stop>
    ensures value { IfOk result (λ items. items.items ≡ originals.now) }
    ensures memory { IfErr result (λ stop. stop ≡ Stop.NoMemory) }
{
    let mut items = Terms::new(alloc);
    for original in originals {
        let copy = copy(alloc, original)?;
        if items.push(copy).is_err() {
            return Err(Stop::NoMemory);
        }
    }
    Ok(items)
}

fn copy(alloc: Global, original: &Term) -> Result<Term, Stop>
    ensures value { IfOk result (λ copy. copy ≡ original.now) }
    ensures memory { IfErr result (λ stop. stop ≡ Stop.NoMemory) }
{
    match copied(alloc, original) {
        Ok(copy) => Ok(copy),
        Err(_) => Err(Stop::NoMemory),
    }
}

// The object of these elements, where it fits. An update makes no object wider or too deep, so `tuple` refuses none.
fn object_of(items: Terms) -> Result<Term, Stop>
    ensures { IsChanged (λ new. new) (object_of items.items) result }
{
    let Ok(object) = tuple(items) else {
        return Err(Stop::NoMemory);
    };
    if !fits(&object) {
        return Err(Stop::Refused(Fault::Size));
    }
    Ok(object)
}
