//! The key that all clauses fix.
ghost use Rattle.std.specs.Prelude.{◌≡◌, ◌≢◌, ◌≤◌, None, IfOk, OnErr, option_map};
ghost use Rattle.ca_plan.specs.Plan.{Covers, all_fix, clause_key, fixes, head_key, plan_of, shared_key};

use crate::answer::Plan;
use crate::fixed::is_fixed;
use ca_spec::Spec;
use ca_term::{Kind, Term, term_order, try_copy};
use std::alloc::{AllocError, Global};

/// Where the objects stand that a match specification can give a result, by element number `keypos`, counted from 1. It is `Key` exactly where
/// there is a clause, each clause's head is a tuple with that element, and there it holds no variable and no `'_'` and is the same key in all.
/// `Err` where memory for the key's copy wasn't found: only where a key is fixed.
/// Source: the `ets` manual's `match`: where the pattern gives the key, the table isn't searched; one key in all clauses is this project's own rule.
pub fn plan(alloc: Global, spec: &Spec, keypos: u32) -> Result<Plan, AllocError>
    requires { 1 ≤ keypos }
    ensures plan { IfOk result (λ plan. plan ≡ plan_of (shared_key keypos spec.now)) }
    ensures covers { IfOk result (λ plan. Covers keypos spec.now plan) }
    ensures lack { OnErr result (shared_key keypos spec.now ≢ None) }
{
    match shared_key(spec.source(), keypos) {
        Some(key) => match try_copy(alloc, key) {
            Ok(copy) => Ok(Plan::Key(copy)),
            Err(_) => Err(AllocError),
        },
        None => Ok(Plan::All),
    }
}

// The key that all clauses of a list fix, where there is a clause.
fn shared_key(clauses: &Term, keypos: u32) -> Option<&Term>
    requires { 1 ≤ keypos }
    ensures { option_map (λ key. key.now) result ≡ shared_key keypos clauses.now }
{
    let Kind::Cons(first, others) = clauses.kind() else {
        return None;
    };
    let key = clause_key(first, keypos)?;
    if all_fix(others, keypos, key) {
        Some(key)
    } else {
        None
    }
}

// Whether each clause of a list fixes this key.
fn all_fix(clauses: &Term, keypos: u32, key: &Term) -> bool
    requires { 1 ≤ keypos }
    ensures { result ≡ all_fix keypos key.now clauses.now }
{
    let mut rest = clauses;
    while let Kind::Cons(clause, others) = rest.kind() {
        if !fixes(clause, keypos, key) {
            return false;
        }
        rest = others;
    }
    true
}

// Whether a clause fixes this key.
fn fixes(clause: &Term, keypos: u32, key: &Term) -> bool
    requires { 1 ≤ keypos }
    ensures { result ≡ fixes keypos key.now clause.now }
{
    match clause_key(clause, keypos) {
        Some(own) => term_order(own, key).is_eq(),
        None => false,
    }
}

// The key that a clause's head fixes.
fn clause_key(clause: &Term, keypos: u32) -> Option<&Term>
    requires { 1 ≤ keypos }
    ensures { option_map (λ key. key.now) result ≡ clause_key keypos clause.now }
{
    let Kind::Tuple(parts) = clause.kind() else {
        return None;
    };
    match parts {
        [head, ..] => head_key(head, keypos),
        [] => None,
    }
}

// The key that a head fixes.
#[tactic(auto, using(ca_term::proofs::Rows::elements_are, ca_term::proofs::Rows::size_row))]
fn head_key(head: &Term, keypos: u32) -> Option<&Term>
    requires { 1 ≤ keypos }
    ensures { option_map (λ key. key.now) result ≡ head_key keypos head.now }
{
    let Kind::Tuple(items) = head.kind() else {
        return None;
    };
    let key = items.get(keypos as usize - 1)?;
    if is_fixed(key) { Some(key) } else { None }
}
