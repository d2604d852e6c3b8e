//! Edits of others, as commands that insert and delete.
ghost use Rattle.std.specs.Prelude.{◌≡◌, ◌≤◌, IfOk, IfSome};
ghost use Rattle.ca_term.specs.Object.{is_object};
ghost use Rattle.ca_term.specs.Tree.{IsTerm};
ghost use Rattle.ca_test_store.specs.Script.{IsProper, AreProper};
ghost use Rattle.ca_store_tests.specs.Samples.{HasKeyAt};

use crate::player::lines_of;
use ca_ets::Cmd;
use ca_model::Code;
use ca_order::{encode, object_parts};
use ca_term::{Kind, Term};
use ca_test_store::Foreign;
use std::alloc::{AllocError, Global};

#[tactic(auto, using(ca_table::proofs::KeyParts::tuple_is))]
fn is_object(object: &Term, keypos: u32) -> bool
    ensures value { result ≡ is_object keypos object.now }
    ensures bounded { IsTerm object.now }
{
    match object.kind() {
        Kind::Tuple(items) => items.len() >= keypos as usize,
        _ => false,
    }
}

// Writes an object's code: where its key's code stands in it.
fn place(object: &Term, keypos: u32, code: &mut Code) -> Option<(usize, usize)>
    requires { 1 ≤ keypos }
    ensures { IfSome result (λ key. HasKeyAt keypos code.new.items key.0 key.1) }
{
    if !is_object(object, keypos) {
        return None;
    }
    let Ok(()) = encode(object, code) else {
        return None;
    };
    let Some((start, end)) = object_parts(code.as_slice(), keypos) else {
        return None;
    };
    Some((start, end))
}

// An edit that puts this object.
fn put_edit(object: &Term, keypos: u32) -> Option<Foreign>
    requires { 1 ≤ keypos }
    ensures { IfSome result (λ edit. IsProper keypos edit) }
{
    let mut code = Code::new();
    let Some((start, end)) = place(object, keypos, &mut code) else {
        return None;
    };
    Some(Foreign::put(code.as_slice(), start, end))
}

// An edit that removes this key.
fn remove_edit(key: &Term) -> Option<Foreign>
    ensures { IfSome result (λ edit. (keypos : _) → IsProper keypos edit) }
{
    let mut code = Code::new();
    let Ok(()) = encode(key, &mut code) else {
        return None;
    };
    if code.is_empty() {
        return None;
    }
    Some(Foreign::remove(code.as_slice()))
}

fn edit(keypos: u32, cmd: &Cmd) -> Option<Foreign>
    requires { 1 ≤ keypos }
    ensures { IfSome result (λ edit. IsProper keypos edit) }
{
    match cmd {
        Cmd::Insert(object) => put_edit(object, keypos),
        Cmd::Delete(key) => remove_edit(key),
        _ => None,
    }
}

/// The edits that a text's commands make; `Err` also where one of them is neither `insert` nor `delete`, or can't be made.
pub(crate) fn edits(alloc: Global, keypos: u32, text: &str) -> Result<Vec<Foreign>, AllocError>
    requires { 1 ≤ keypos }
    ensures { IfOk result (λ edits. AreProper keypos edits.items) }
{
    let lines = lines_of(alloc, text)?;
    let mut edits = Vec::new(alloc);
    for line in lines.as_slice() {
        let Some(edit) = edit(keypos, &line.cmd) else {
            return Err(AllocError);
        };
        let Ok(()) = edits.push(edit) else {
            return Err(AllocError);
        };
    }
    Ok(edits)
}
