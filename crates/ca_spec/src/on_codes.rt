//! What a specification makes of an object, by the object's code.
ghost use Rattle.std.specs.Prelude.{◌≡◌, ◌≤◌, ◌∷◌, IfOk, IfSome, IsSome, OnErr, is_some, length, option_map};
ghost use Rattle.ca_term.specs.Code.{code_of};
ghost use Rattle.ca_term.specs.Tree.{Cons, IsTerm, Nil, Tree, list_of};
ghost use Rattle.ca_match.specs.Match.{clause_result, guarded, no_bindings, pass, result_of};
ghost use Rattle.ca_order.specs.CodesView.{tree_of};
ghost use Rattle.ca_order.specs.Languages.{IsTermCode};
ghost use Rattle.ca_spec.specs.ByCode.{IsOnePlain, IsPlain};
ghost use Rattle.ca_spec.specs.ClauseView.{tree_of_clause, trees_of_clauses};
ghost use Rattle.ca_spec.specs.FoundView.{tree_of_found};
ghost use Rattle.ca_spec.specs.PartBound.{parts_of, scene_in};
ghost use Rattle.ca_spec.specs.Places.{places};
ghost use Rattle.ca_spec.specs.QuickView.{IsKnown, IsTold};
ghost use Rattle.ca_spec.specs.Reached.{IsReached, MayFit, SomeMayFit};

use crate::clause::Clause;
use crate::evaluation::{pass, value};
use crate::expression::Expression;
use crate::fitted::Fitted;
use crate::fitting::fit_object;
use crate::found::Found;
use crate::quick::{self, Quick, may_be_part, passed, quick_result, result_where};
use crate::results::{FEW, result_of_clause};
use crate::spec::Spec;
use ca_order::Part;
use ca_term::{Term, try_copy};
use std::alloc::{AllocError, Global};

/// What `apply` makes of the object whose code this is. Nothing is decoded for comparisons of parts and constants, tests of their kinds, and `andalso`,
/// `orelse` and `not` of these, nor for a result that is a part of the object, the whole object or a constant; else, where the head fits, the parts that a
/// guard or the body asks for. The whole object is decoded for `'$_'` within an expression alone, or where a constant of a head is longer than a code may be.
/// Memory is taken only where a head may fit, for what is decoded and as by `apply`.
pub fn apply_code<'a>(
    alloc: Global,
    spec: &'a Spec,
    code: &'a [u8],
) -> Result<Option<Found<'a>>, AllocError>
    requires { IsTermCode code.now }
    ensures found { IfOk result (λ found. (object : Tree) → IsTerm object → code.entry.now ≡ code_of object
        → option_map tree_of_found found ≡ result_of spec.entry.now object) }
    ensures lack { OnErr result ((object : Tree) → IsTerm object → code.entry.now ≡ code_of object → SomeMayFit spec.entry.now object) }
{
    result_of_clauses(alloc, spec.clauses.as_slice(), Part::of(code))
}

/// The code of the result that `apply` gives the object whose code this is, or `Some(None)` where it gives none; `None` where that isn't told. It is told of
/// each specification of one plain clause (`IsOnePlain`): of the variables '$0' to '$3', whose guards compare variables, the object and constants or test
/// their kinds, or are `andalso`, `orelse` and `not` of these, and whose body is one of them. It takes no memory, and less time than `apply_code`.
#[inline(always)]
#[tactic(auto, using(crate::proofs::LeftClauses::only_told, crate::proofs::PlainClauses::no_plain))]
pub fn told_by_code<'a>(spec: &'a Spec, code: &'a [u8]) -> Option<Option<Part<'a>>>
    requires { IsTermCode code.now }
    ensures result { IfSome result (λ told. (object : Tree) → IsTerm object → code.entry.now ≡ code_of object
        → option_map tree_of told ≡ result_of spec.entry.now object) }
    ensures told { IsOnePlain spec.entry.now → IsSome result }
{
    let (clause, others) = spec.clauses.as_slice().split_first()?;
    if !others.is_empty() {
        return None;
    }
    let told = told_of_few(clause, Part::of(code))?;
    Some(told)
}

// What the code tells of a clause's result, where the clause has few variables and its body may be a part.
#[inline(always)]
fn told_of_few<'a>(clause: &'a Clause, object: Part<'a>) -> Option<Option<Part<'a>>>
    ensures result { IfSome result (λ told. option_map tree_of told ≡ clause_result (tree_of_clause clause.entry.now) (tree_of object.entry)) }
    ensures told { IsPlain clause.entry.now.head (list_of clause.entry.now.guards.items Nil) clause.entry.now.body → IsSome result }
{
    if clause.places > FEWER || !may_be_part(&clause.body) {
        return None;
    }
    let mut table: [Option<Part<'a>>; FEWER] = [None; FEWER];
    match quick_result(clause, object, &mut table) {
        Quick::None => Some(None),
        Quick::Part(part) => Some(Some(part)),
        Quick::Term(_) => None,
        Quick::Unknown => None,
    }
}

/// Whether `apply` gives the object whose code this is a result. The result itself is made only where guards and body are more than comparisons, parts
/// and constants; memory is taken as by `apply_code`, and none for a result that is a part of the object or a constant.
pub fn chooses(alloc: Global, spec: &Spec, code: &[u8]) -> Result<bool, AllocError>
    requires { IsTermCode code.now }
    ensures chosen { IfOk result (λ chosen. (object : Tree) → IsTerm object → code.now ≡ code_of object → chosen ≡ is_some (result_of spec.now object)) }
    ensures lack { OnErr result ((object : Tree) → IsTerm object → code.now ≡ code_of object → SomeMayFit spec.now object) }
{
    some_holds(alloc, spec.clauses.as_slice(), Part::of(code))
}

// Whether some clause holds.
#[tactic(auto, using(crate::proofs::LeftClauses::holding_clauses))]
fn some_holds<'a>(
    alloc: Global,
    clauses: &'a [Clause],
    object: Part<'a>,
) -> Result<bool, AllocError>
    ensures chosen { IfOk result (λ chosen. chosen ≡ is_some (result_of (list_of (trees_of_clauses clauses.entry.now) Nil) (tree_of object.entry))) }
    ensures lack { OnErr result (SomeMayFit (list_of (trees_of_clauses clauses.entry.now) Nil) (tree_of object.entry)) }
{
    let mut left = clauses;
    while let Some((clause, others)) = left.split_first() {
        if holds(alloc, clause, object)? {
            return Ok(true);
        }
        left = others;
    }
    Ok(false)
}

// Whether a clause holds.
fn holds<'a>(alloc: Global, clause: &'a Clause, object: Part<'a>) -> Result<bool, AllocError>
    ensures holds { IfOk result (λ holds. holds ≡ is_some (clause_result (tree_of_clause clause.entry.now) (tree_of object.entry))) }
    ensures lack { OnErr result (MayFit clause.entry.now.head (tree_of object.entry)) }
{
    match told(clause, object) {
        Quick::None => Ok(false),
        Quick::Part(_) => Ok(true),
        Quick::Term(_) => Ok(true),
        Quick::Unknown => Ok(valued_result(alloc, clause, object)?.is_some()),
    }
}

// The result of the first clause that holds. Clauses that are known to have none are passed over here, where nothing is kept for a result.
#[tactic(auto, using(crate::proofs::LeftClauses::left_clauses))]
#[inline(always)]
fn result_of_clauses<'a>(
    alloc: Global,
    clauses: &'a [Clause],
    object: Part<'a>,
) -> Result<Option<Found<'a>>, AllocError>
    ensures found { IfOk result (λ found. option_map tree_of_found found ≡ result_of (list_of (trees_of_clauses clauses.entry.now) Nil) (tree_of object.entry)) }
    ensures lack { OnErr result (SomeMayFit (list_of (trees_of_clauses clauses.entry.now) Nil) (tree_of object.entry)) }
{
    let mut left = clauses;
    while let Some((clause, others)) = left.split_first() {
        if clause.places > FEWER {
            return first_result(alloc, left, object);
        }
        let mut table: [Option<Part<'a>>; FEWER] = [None; FEWER];
        match passed(clause, object, &mut table) {
            Some(false) => left = others,
            known => return result_from(alloc, clause, others, object, known, &table),
        }
    }
    Ok(None)
}

// The result of the first one of some clauses that holds. Of the first one this is known, with what its head bound in this table.
#[inline(never)]
#[tactic(auto, using(crate::proofs::LeftClauses::first_clause))]
fn result_from<'a>(
    alloc: Global,
    clause: &'a Clause,
    others: &'a [Clause],
    object: Part<'a>,
    known: Option<bool>,
    table: &[Option<Part<'a>>],
) -> Result<Option<Found<'a>>, AllocError>
    requires { IsKnown known clause.now object table.now }
    ensures found { IfOk result (λ found.
        option_map tree_of_found found ≡ result_of (list_of (trees_of_clauses (clause.entry.now ∷ others.entry.now)) Nil) (tree_of object.entry)) }
    ensures lack { OnErr result (SomeMayFit (list_of (trees_of_clauses (clause.entry.now ∷ others.entry.now)) Nil) (tree_of object.entry)) }
{
    let told = result_where(known, clause, object, table);
    if let Some(found) = result_told(alloc, clause, object, told)? {
        return Ok(Some(found));
    }
    first_result(alloc, others, object)
}

// The result of the first clause that holds, where more of them may be known than codes tell.
#[inline(never)]
#[tactic(auto, using(crate::proofs::ClauseResults::first_results))]
fn first_result<'a>(
    alloc: Global,
    clauses: &'a [Clause],
    object: Part<'a>,
) -> Result<Option<Found<'a>>, AllocError>
    ensures found { IfOk result (λ found. option_map tree_of_found found ≡ result_of (list_of (trees_of_clauses clauses.entry.now) Nil) (tree_of object.entry)) }
    ensures lack { OnErr result (SomeMayFit (list_of (trees_of_clauses clauses.entry.now) Nil) (tree_of object.entry)) }
{
    for clause in clauses {
        if let Some(found) = result_of_part(alloc, clause, object)? {
            return Ok(Some(found));
        }
    }
    Ok(None)
}

// The result of a clause where it holds.
fn result_of_part<'a>(
    alloc: Global,
    clause: &'a Clause,
    object: Part<'a>,
) -> Result<Option<Found<'a>>, AllocError>
    ensures found { IfOk result (λ found. option_map tree_of_found found ≡ clause_result (tree_of_clause clause.entry.now) (tree_of object.entry)) }
    ensures lack { OnErr result (MayFit clause.entry.now.head (tree_of object.entry)) }
{
    result_told(alloc, clause, object, told(clause, object))
}

// The result of a clause of which this is told.
#[inline(always)]
fn result_told<'a>(
    alloc: Global,
    clause: &'a Clause,
    object: Part<'a>,
    told: Quick<'a>,
) -> Result<Option<Found<'a>>, AllocError>
    requires told { IsTold told (clause_result (tree_of_clause clause.now) (tree_of object)) }
    requires reached { IsReached told clause.now.head (tree_of object) }
    ensures found { IfOk result (λ found. option_map tree_of_found found ≡ clause_result (tree_of_clause clause.entry.now) (tree_of object.entry)) }
    ensures lack { OnErr result (MayFit clause.entry.now.head (tree_of object.entry)) }
{
    match told {
        Quick::None => Ok(None),
        Quick::Part(part) => Ok(Some(Found::Coded(part))),
        Quick::Term(term) => match try_copy(alloc, term) {
            Ok(copy) => Ok(Some(Found::Made(copy))),
            Err(_) => Err(AllocError),
        },
        Quick::Unknown => match valued_result(alloc, clause, object)? {
            Some(value) => Ok(Some(Found::Made(value))),
            None => Ok(None),
        },
    }
}

// With so many places the table of most clauses is made in a few stores.
const FEWER: usize = 4;

// What the code tells of a clause's result, with a table for the clause's variables.
#[inline(always)]
fn told<'a>(clause: &'a Clause, object: Part<'a>) -> Quick<'a>
    ensures told { IsTold result (clause_result (tree_of_clause clause.entry.now) (tree_of object.entry)) }
    ensures reached { IsReached result clause.entry.now.head (tree_of object.entry) }
{
    if clause.places <= FEWER {
        let mut table: [Option<Part<'a>>; FEWER] = [None; FEWER];
        return quick_result(clause, object, &mut table);
    }
    told_of_many(clause, object)
}

// The same with a table for as many variables as there are. It stands apart, so that no room is kept for it where there are few.
#[inline(never)]
fn told_of_many<'a>(clause: &'a Clause, object: Part<'a>) -> Quick<'a>
    ensures told { IsTold result (clause_result (tree_of_clause clause.entry.now) (tree_of object.entry)) }
    ensures reached { IsReached result clause.entry.now.head (tree_of object.entry) }
{
    let mut table: [Option<Part<'a>>; 100] = [None; 100];
    quick_result(clause, object, &mut table)
}

// The result of a clause where it holds, by values of parts of the code.
#[inline(never)]
fn valued_result<'a>(
    alloc: Global,
    clause: &'a Clause,
    object: Part<'a>,
) -> Result<Option<Term>, AllocError>
    ensures found { IfOk result (λ found. found ≡ clause_result (tree_of_clause clause.entry.now) (tree_of object.entry)) }
    ensures lack { OnErr result (MayFit clause.entry.now.head (tree_of object.entry)) }
{
    if clause.places <= FEW {
        let mut table: [Option<Part<'a>>; FEW] = [None; FEW];
        return valued_with(alloc, clause, object, &mut table);
    }
    let mut table: [Option<Part<'a>>; 100] = [None; 100];
    valued_with(alloc, clause, object, &mut table)
}

// The same with this table, which is empty.
#[tactic(auto, using(crate::proofs::QuickResults::part_results, crate::proofs::Reaching::reached))]
fn valued_with<'a>(
    alloc: Global,
    clause: &'a Clause,
    object: Part<'a>,
    table: &mut [Option<Part<'a>>],
) -> Result<Option<Term>, AllocError>
    requires room { places clause.now.head ≤ length table.old }
    requires none { parts_of table.old ≡ no_bindings }
    ensures found { IfOk result (λ found. found ≡ clause_result (tree_of_clause clause.entry.now) (tree_of object.entry)) }
    ensures lack { OnErr result (MayFit clause.entry.now.head (tree_of object.entry)) }
{
    match fit_object(&clause.head, clause.asked, object, table) {
        Some(true) => body_term(alloc, clause, object, table),
        Some(false) => Ok(None),
        None => decoded_result(alloc, clause, object),
    }
}

// The value of a clause's body where all guards are true, as a term, with what the head bound in this table.
#[tactic(auto, using(crate::proofs::ClauseResults::guarded_results))]
fn body_term<'a>(
    alloc: Global,
    clause: &'a Clause,
    object: Part<'a>,
    table: &[Option<Part<'a>>],
) -> Result<Option<Term>, AllocError>
    ensures { let scene = scene_in object.entry table.now in
        IfOk result (λ found. found ≡ guarded scene (list_of clause.entry.now.guards.items Nil) (Cons clause.entry.now.body Nil)) }
{
    if !guards_hold(alloc, clause.guards.as_slice(), object, table)? {
        return Ok(None);
    }
    match value(alloc, &clause.body, &Fitted::Parts { object, table })? {
        Some(value) => Ok(Some(value.into_term(alloc)?)),
        None => Ok(None),
    }
}

// Whether all guards are true. Where the code doesn't tell, their values are made of its parts.
fn guards_hold<'a>(
    alloc: Global,
    guards: &'a [Expression],
    object: Part<'a>,
    table: &[Option<Part<'a>>],
) -> Result<bool, AllocError>
    ensures { IfOk result (λ passed. passed ≡ pass (scene_in object.entry table.now) (list_of guards.entry.now Nil)) }
{
    match quick::pass(guards, object, table) {
        Some(told) => Ok(told),
        None => pass(alloc, guards, &Fitted::Parts { object, table }),
    }
}

// The result of a clause where it holds, by the object as a term.
#[inline(never)]
fn decoded_result(
    alloc: Global,
    clause: &Clause,
    object: Part<'_>,
) -> Result<Option<Term>, AllocError>
    ensures { IfOk result (λ found. found ≡ clause_result (tree_of_clause clause.now) (tree_of object.entry)) }
{
    let term = object.term(alloc)?;
    match result_of_clause(alloc, clause, &term)? {
        Some(value) => Ok(Some(value.into_term(alloc)?)),
        None => Ok(None),
    }
}
