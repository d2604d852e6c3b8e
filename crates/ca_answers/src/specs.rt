//! Calls of match specifications.
ghost use Rattle.std.specs.Prelude.{◌≤◌};

use crate::say::{say, say_term, say_value};
use ca_match::match_result;
use ca_order::{Code, encode};
use ca_plan::{Plan, plan};
use ca_spec::{Found, Spec, apply, apply_code, chooses, compile};
use ca_term::{Term, term_order};
use std::alloc::{AllocError, Global};

/// The term of a specification, once it is compiled.
pub(crate) fn say_compiled(alloc: Global, spec: &Term, into: &mut Vec<u8>) {
    match compile(alloc, spec) {
        Ok(spec) => say_term(spec.source(), into),
        Err(fault) => say_value(alloc, &fault, into),
    }
}

fn say_result(found: Result<Option<Term>, AllocError>, into: &mut Vec<u8>) {
    match found {
        Ok(Some(term)) => {
            say(b"result ", into);
            say_term(&term, into);
        }
        Ok(None) => say(b"none", into),
        Err(_) => say(b"no memory", into),
    }
}

/// What a compiled specification makes of an object, and what it makes and tells of the object's code, where that differs.
pub(crate) fn say_applied(alloc: Global, spec: &Term, object: &Term, into: &mut Vec<u8>) {
    match compile(alloc, spec) {
        Ok(spec) => say_both(alloc, &spec, object, into),
        Err(fault) => say_value(alloc, &fault, into),
    }
}

fn say_both(alloc: Global, spec: &Spec, object: &Term, into: &mut Vec<u8>) {
    let found = apply(alloc, spec, object);
    let mut code = Code::new();
    let _kind = object.kind();
    let Ok(()) = encode(object, &mut code) else {
        return say_result(found, into);
    };
    let by_code = made(alloc, apply_code(alloc, spec, code.as_slice()));
    let chosen = chooses(alloc, spec, code.as_slice());
    let differs = !is_same(&found, &by_code);
    let told_otherwise = !tells(&found, chosen);
    say_result(found, into);
    if differs {
        say(b", and by its code ", into);
        say_result(by_code, into);
    }
    if told_otherwise {
        say(b", and it is told otherwise whether there is one", into);
    }
}

// The term of what is told of a result.
fn made(
    alloc: Global,
    found: Result<Option<Found<'_>>, AllocError>,
) -> Result<Option<Term>, AllocError> {
    match found? {
        Some(found) => Ok(Some(found.term(alloc)?)),
        None => Ok(None),
    }
}

// Whether it is told of a result whether it is one.
fn tells(found: &Result<Option<Term>, AllocError>, chosen: Result<bool, AllocError>) -> bool {
    match (found, chosen) {
        (Ok(found), Ok(chosen)) => found.is_some() == chosen,
        _ => false,
    }
}

fn is_same(a: &Result<Option<Term>, AllocError>, b: &Result<Option<Term>, AllocError>) -> bool {
    match (a, b) {
        (Ok(Some(a)), Ok(Some(b))) => term_order(a, b).is_eq(),
        (Ok(None), Ok(None)) => true,
        _ => false,
    }
}

/// What a specification makes of an object, by the plain matcher of its definition.
pub(crate) fn say_matched(alloc: Global, spec: &Term, object: &Term, into: &mut Vec<u8>) {
    say_result(match_result(alloc, spec, object), into);
}

/// Where the objects are that a specification can give a result.
pub(crate) fn say_plan(alloc: Global, keypos: u32, spec: &Term, into: &mut Vec<u8>)
    requires { 1 ≤ keypos }
{
    match compile(alloc, spec) {
        Ok(spec) => match plan(alloc, &spec, keypos) {
            Ok(Plan::Key(key)) => {
                say(b"key ", into);
                say_term(&key, into);
            }
            Ok(Plan::All) => say(b"all", into),
            Err(_) => say(b"no memory", into),
        },
        Err(fault) => say_value(alloc, &fault, into),
    }
}
