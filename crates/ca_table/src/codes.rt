//! Keys and objects of commands as codes, and objects that were found as terms.
ghost use Rattle.std.specs.Prelude.{◌≡◌, ◌≤◌, IfOk, MatchOption, None, length, slice_range};
ghost use Rattle.ca_term.specs.Object.{is_object, key_of};
ghost use Rattle.ca_term.specs.Tree.{IsTerm, Row, Tuple};
ghost use Rattle.ca_ets.specs.Step.{fault_of_key, fault_of_object};
ghost use Rattle.ca_ets.specs.Update.{element_of};
ghost use Rattle.ca_order.specs.Languages.{IsTermCode};
ghost use Rattle.ca_table.specs.Codes.{HasKeyCode, HasObjectCode, IsAsked, IsOnly};
ghost use Rattle.ca_table.specs.Renewed.{IsObjectCode};
ghost use Rattle.ca_ets.specs.Unless.{IsUnless};

use ca_ets::{Fault, element};
use ca_model::Code;
use ca_order::{CodeList, DecodeFault, Part, decode, encode, object_parts};
use ca_term::{Kind, Term};
use std::alloc::{AllocError, Global};

// Where an object's key stands in the object's code.
#[derive(Clone, Copy)]
pub(crate) struct KeyRange {
    pub start: usize,
    pub end: usize,
}

// Writes the code of a key into `into`, or tells why the key is refused.
pub(crate) fn key_code(key: &Term, into: &mut Code) -> Result<(), Fault>
    ensures { IsUnless (fault_of_key key.now) (λ _. HasKeyCode key.now into.new.items) result }
{
    let _kind = key.kind();
    let Ok(()) = encode(key, into) else {
        return Err(Fault::Size);
    };
    let _length = into.len();
    Ok(())
}

// Writes the code of an object into `into`: where its key stands in it, or why the object is refused.
pub(crate) fn object_code(object: &Term, keypos: u32, into: &mut Code) -> Result<KeyRange, Fault>
    requires { 1 ≤ keypos }
    ensures { IsUnless (fault_of_object keypos object.now) (λ key. HasObjectCode keypos object.now into.new.items key.start key.end) result }
{
    if !is_object(object, keypos) {
        return Err(Fault::BadArg);
    }
    let Ok(()) = encode(object, into) else {
        return Err(Fault::Size);
    };
    let Some((start, end)) = object_parts(into.as_slice(), keypos) else {
        unreachable!()
    };
    Ok(KeyRange { start, end })
}

// Whether a term is a tuple with at least `keypos` elements.
#[tactic(auto, using(crate::proofs::KeyParts::tuple_is))]
fn is_object(object: &Term, keypos: u32) -> bool
    ensures value { result ≡ is_object keypos object.now }
    ensures bounded { IsTerm object.now }
{
    match object.kind() {
        Kind::Tuple(items) => items.len() >= keypos as usize,
        _ => false,
    }
}

// The position and the value that the argument of `update_element` asks for, if it is of its form.
pub(crate) fn asked_element(keypos: u32, op: &Term) -> Option<(i64, &Term)>
    ensures { MatchOption result (element_of keypos op.now ≡ None) (λ asked. IsAsked keypos op.now asked.0 asked.1.now) }
{
    let _kind = op.kind();
    element(keypos, op)
}

// The key of the object whose code these bytes are. Only the key's part of them is read as a term.
pub(crate) fn key_of(alloc: Global, object: &Code, keypos: u32) -> Result<Term, AllocError>
    requires { (row : Row) × IsObjectCode keypos row object.now.items }
    ensures { IfOk result (λ key. (row : Row) → IsObjectCode keypos row object.now.items → key ≡ key_of keypos (Tuple row)) }
{
    let bytes = object.as_slice();
    let Some((start, end)) = object_parts(bytes, keypos) else {
        unreachable!()
    };
    let inside = part(bytes, start, end);
    let key = match decode(alloc, inside) {
        Ok(key) => key,
        Err(DecodeFault::NoMemory) => return Err(AllocError),
        Err(DecodeFault::NotACode { at: _ }) => unreachable!(),
    };
    let _kind = key.kind();
    Ok(key)
}

// The bytes from one place up to another one.
fn part(bytes: &[u8], start: usize, end: usize) -> &[u8]
    requires rising { start ≤ end }
    requires inside { end ≤ length bytes.now }
    ensures { result.now ≡ slice_range bytes.now start end }
{
    &bytes[start..end]
}

// The list of the term that these bytes are the code of, by its code.
pub(crate) fn only(alloc: Global, code: &Code) -> Result<CodeList, AllocError>
    requires { IsTermCode code.now.items }
    ensures { IfOk result (λ list. IsOnly code.now.items list) }
{
    let mut list = CodeList::new(alloc);
    list.push(Part::of(code.as_slice()))?;
    Ok(list)
}
