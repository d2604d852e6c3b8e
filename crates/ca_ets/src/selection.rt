//! Results of match specifications over objects in key order.
ghost use Rattle.std.specs.Prelude.{◌≡◌, ◌≤◌, ◌&&◌, ℕ, List, true, length, take, nat_lt, is_some, option_map, IfOk, IfSome, OnOk, ◌∷◌, [], ◌++◌, ◌<◌};
ghost use Rattle.std.specs.Ordering.{is_le};
ghost use Rattle.ca_term.specs.Object.{is_object, key_of};
ghost use Rattle.ca_term.specs.Order.{term_cmp};
ghost use Rattle.ca_term.specs.Tree.{Tree};
ghost use Rattle.ca_ets.specs.Command.{IsContinuation, continuation_of};
ghost use Rattle.ca_match.specs.Match.{chosen};
ghost use Rattle.ca_ets.specs.OrderedMap.{IsTable, between};
ghost use Rattle.ca_ets.specs.Selected.{HasFound};
ghost use Rattle.ca_match.specs.Specification.{IsSpecification};
ghost use Rattle.ca_ets.specs.Step.{keyed_results, last_found, limit_of, results_in, step_of_reply, step_of_results};

use crate::command::{Cont, Reply};
use crate::object::{copied, own_key};
use ca_match::match_result;
use ca_term::{Kind, Term, Terms, term_order};
use std::alloc::{AllocError, Global};

// The results of all objects that a specification chooses.
#[tactic(auto, using(crate::proofs::Selected::selecting))]
pub(crate) fn results(alloc: Global, spec: &Term, objects: &[Term]) -> Result<Terms, AllocError>
    ensures { IfOk result (λ terms. terms.items ≡ chosen spec.now objects.now) }
{
    let mut terms = Terms::new(alloc);
    for object in objects {
        push_result(alloc, spec, object, &mut terms)?;
    }
    Ok(terms)
}

// The results of the objects that a specification chooses from one key to another.
#[tactic(auto, using(crate::proofs::Selected::selecting, crate::proofs::Walks::object_at))]
pub(crate) fn results_between(
    alloc: Global,
    keypos: u32,
    spec: &Term,
    objects: &[Term],
    lo: &Term,
    hi: &Term,
) -> Result<Terms, AllocError>
    requires positive { 1 ≤ keypos }
    requires table { IsTable keypos objects.now }
    ensures { IfOk result (λ terms. terms.items ≡ chosen spec.now (between keypos objects.now lo.now hi.now)) }
{
    let mut terms = Terms::new(alloc);
    for object in objects {
        push_between(alloc, keypos, spec, object, lo, hi, &mut terms)?;
    }
    Ok(terms)
}

// Puts the result of an object whose key stands between two keys, where it has one, behind those so far.
#[tactic(auto, using(crate::proofs::Selected::one_between))]
fn push_between(
    alloc: Global,
    keypos: u32,
    spec: &Term,
    object: &Term,
    lo: &Term,
    hi: &Term,
    terms: &mut Terms,
) -> Result<(), AllocError>
    requires positive { 1 ≤ keypos }
    requires object { is_object keypos object.now ≡ true }
    ensures { OnOk result (terms.new.items ≡ terms.old.items ++ chosen spec.now (between keypos (object.now ∷ []) lo.now hi.now)) }
{
    if !is_between(object, keypos, lo, hi) {
        return Ok(());
    }
    push_result(alloc, spec, object, terms)?;
    Ok(())
}

// Whether an object's key stands between two keys, or is one of them.
fn is_between(object: &Term, keypos: u32, lo: &Term, hi: &Term) -> bool
    requires positive { 1 ≤ keypos }
    requires object { is_object keypos object.now ≡ true }
    ensures { result ≡ (is_le (term_cmp lo.now (key_of keypos object.now)) && is_le (term_cmp (key_of keypos object.now) hi.now)) }
{
    let own = own_key(object, keypos);
    term_order(lo, own).is_le() && term_order(own, hi).is_le()
}

// Puts the result of an object, where it has one, behind those so far, and answers whether it has one.
fn push_result(
    alloc: Global,
    spec: &Term,
    object: &Term,
    terms: &mut Terms,
) -> Result<bool, AllocError>
    ensures results { OnOk result (terms.new.items ≡ terms.old.items ++ chosen spec.now (object.now ∷ [])) }
    ensures found { IfOk result (λ found. HasFound spec.now object.now found) }
{
    match match_result(alloc, spec, object)? {
        Some(term) => match terms.push(term) {
            Ok(()) => Ok(true),
            Err(_) => Err(AllocError),
        },
        None => Ok(false),
    }
}

// How many results a batch asks for: an integer of at least 1.
pub(crate) fn limit_of(term: &Term) -> Option<u64>
    ensures value { option_map (λ limit. limit) result ≡ limit_of term.now }
    ensures positive { IfSome result (λ limit. 1 ≤ limit) }
{
    match term.kind() {
        Kind::Int(number) if number >= 1 => Some(number as u64),
        _ => None,
    }
}

// The batch of the first results of objects: the reply, and where it leaves the client. A full one takes memory for its continuation.
#[tactic(auto, using(crate::proofs::Selected::batching, crate::proofs::Results::results_fit))]
pub(crate) fn batch(
    alloc: Global,
    keypos: u32,
    spec: &Term,
    limit: u64,
    objects: &[Term],
) -> Result<(Reply, Cont), AllocError>
    requires positive { 1 ≤ keypos }
    requires limit { 1 ≤ limit }
    requires table { IsTable keypos objects.now }
    requires specification { IsSpecification spec.now }
    ensures continuation { IfOk result (λ made. IsContinuation (continuation_of made.1)) }
    ensures step { (map : List Tree) → IfOk result (λ made. step_of_results map spec.now limit (keyed_results keypos spec.now objects.now)
        ≡ step_of_reply map (continuation_of made.1) made.0) }
{
    let (terms, last) = first_results(alloc, keypos, spec, limit, objects)?;
    let Some(last) = last else {
        return Ok((Reply::End, Cont::AtEnd));
    };
    if (terms.len() as u64) < limit {
        return Ok((Reply::Batch(terms, false), Cont::AtEnd));
    }
    let next = Cont::At {
        spec: copied(alloc, spec)?,
        limit,
        key: copied(alloc, last)?,
    };
    Ok((Reply::Batch(terms, true), next))
}

// The first results of objects, at most so many, and the key of the object that gave the last of them.
#[tactic(auto, using(crate::proofs::Selected::batching, crate::proofs::Walks::object_at))]
fn first_results<'a>(
    alloc: Global,
    keypos: u32,
    spec: &Term,
    limit: u64,
    objects: &'a [Term],
) -> Result<(Terms, Option<&'a Term>), AllocError>
    requires positive { 1 ≤ keypos }
    requires limit { 1 ≤ limit }
    requires table { IsTable keypos objects.now }
    ensures results { IfOk result (λ found. found.0.items ≡ results_in (take limit (keyed_results keypos spec.now objects.now))) }
    ensures last { IfOk result (λ found. IfSome found.1 (λ last. last.now ≡ last_found (take limit (keyed_results keypos spec.now objects.now)))) }
    ensures some { IfOk result (λ found. is_some found.1 ≡ nat_lt 0 (length found.0.items)) }
{
    let mut terms = Terms::new(alloc);
    let mut last = None;
    for object in objects {
        if !push_result(alloc, spec, object, &mut terms)? {
            continue;
        }
        last = Some(own_key(object, keypos));
        if terms.len() as u64 == limit {
            return Ok((terms, last));
        }
    }
    Ok((terms, last))
}
