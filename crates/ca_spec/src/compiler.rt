//! Match specifications, compiled.
ghost use Rattle.std.specs.Prelude.{◌≡◌, ◌+◌, true, None, IfErr, IfOk, OnOk};
ghost use Rattle.ca_term.specs.Tree.{Cons, Nil, Tuple, list_of, row_of};
ghost use Rattle.ca_match.specs.Specification.{IsSpecification, body_fault, clause_fault, clauses_fault, each_fault, guards_fault, is_proper};
ghost use Rattle.ca_spec.specs.ClauseView.{parts_fault, tree_of_clause, tree_of_parts, trees_of_clauses};
ghost use Rattle.ca_spec.specs.Faults.{IsNamed, IsRefusal, IsStop, in_clause};
ghost use Rattle.ca_spec.specs.Held.{AreOf};

use crate::clause::Clause;
use crate::expression::Expression;
use crate::expressions::expression;
use crate::fault::{SpecFault, SpecWhy, Stop};
use crate::fitting::asked_parts;
use crate::heads::head;
use crate::held::Variables;
use crate::scope::{Part, Scope};
use crate::spec::Spec;
use ca_term::{Kind, Term, try_copy};
use std::alloc::Global;

/// Compiles a match specification: a proper list of clauses `{Head,Guards,Body}`. Where the term is none, the first fault in reading order is
/// answered: of the list, then of each clause its form, its head, its guards and its body.
/// Source: the ERTS user's guide, "Match Specifications in Erlang".
pub fn compile(alloc: Global, spec: &Term) -> Result<Spec, SpecFault>
    ensures ok { IfOk result (λ compiled. compiled ≡ spec.now) }
    ensures accepted { OnOk result (IsSpecification spec.now) }
    ensures accepts { IsSpecification spec.now → IfErr result (λ fault. fault ≡ SpecFault.NoMemory) }
    ensures refused { IfErr result (λ fault. IsRefusal spec.now fault) }
{
    if !is_proper(spec) {
        return Err(SpecFault::BadSpec {
            clause: 0,
            why: SpecWhy::NotAList,
        });
    }
    let clauses = clauses(alloc, spec)?;
    let source = try_copy(alloc, spec)?;
    Ok(Spec { source, clauses })
}

// Whether a term is a list that ends with the empty list.
fn is_proper(term: &Term) -> bool
    ensures { result ≡ is_proper term.now }
{
    let mut rest = term;
    while let Kind::Cons(_, tail) = rest.kind() {
        rest = tail;
    }
    matches!(rest.kind(), Kind::Nil)
}

// The clauses of a proper list.
#[tactic(auto, using(crate::proofs::Clauses::clauses_push), unfolding(ca_match::specs::Specification::clauses_fault))]
fn clauses(alloc: Global, list: &Term) -> Result<Vec<Clause>, SpecFault>
    requires { is_proper list.now ≡ true }
    ensures ok { IfOk result (λ clauses. list_of (trees_of_clauses clauses.items) Nil ≡ list.now) }
    ensures well { OnOk result (clauses_fault 1 list.now ≡ None) }
    ensures refused { IfErr result (λ fault. IsNamed (clauses_fault 1 list.now) fault) }
{
    let mut clauses = Vec::new(alloc);
    let mut rest = list;
    while let Kind::Cons(first, others) = rest.kind() {
        match clause(alloc, first) {
            Ok(clause) => clauses.push(clause)?,
            Err(stop) => return Err(in_clause(clauses.len(), stop)),
        }
        rest = others;
    }
    Ok(clauses)
}

// Why compiling stopped in the clause behind so many others.
fn in_clause(passed: usize, stop: Stop) -> SpecFault
    ensures { result ≡ in_clause (passed + 1) stop }
{
    match stop {
        Stop::Fault(why) => SpecFault::BadSpec {
            clause: passed.saturating_add(1).min(u32::MAX as usize) as u32,
            why,
        },
        Stop::NoMemory => SpecFault::NoMemory,
    }
}

// A clause {Head,Guards,Body}.
fn clause(alloc: Global, term: &Term) -> Result<Clause, Stop>
    ensures ok { IfOk result (λ clause. tree_of_clause clause ≡ term.now) }
    ensures well { OnOk result (clause_fault term.now ≡ None) }
    ensures stop { IfErr result (λ stop. IsStop (clause_fault term.now) stop) }
{
    match term.kind() {
        Kind::Tuple(items) => clause_of(alloc, items),
        Kind::Int(_) | Kind::Atom(_) | Kind::Nil | Kind::Cons(_, _) | Kind::Bin(_) => {
            Err(Stop::Fault(SpecWhy::NotAClause))
        }
    }
}

// A clause by the elements of its tuple.
#[tactic(auto, using(crate::proofs::Clauses::too_few, crate::proofs::Clauses::too_many))]
fn clause_of(alloc: Global, items: &[Term]) -> Result<Clause, Stop>
    ensures ok { IfOk result (λ clause. tree_of_clause clause ≡ Tuple (row_of items.now)) }
    ensures well { OnOk result (clause_fault (Tuple (row_of items.now)) ≡ None) }
    ensures stop { IfErr result (λ stop. IsStop (clause_fault (Tuple (row_of items.now))) stop) }
{
    match items {
        [head, guards, body] => clause_with(alloc, head, guards, body),
        [] | [_] | [_, _] => Err(Stop::Fault(SpecWhy::NotAClause)),
        [_, _, _, _, ..] => Err(Stop::Fault(SpecWhy::NotAClause)),
    }
}

// A clause by its head, its guards and its body.
fn clause_with(alloc: Global, first: &Term, second: &Term, third: &Term) -> Result<Clause, Stop>
    ensures ok { IfOk result (λ clause. tree_of_clause clause ≡ tree_of_parts first.now second.now third.now) }
    ensures well { OnOk result (parts_fault first.now second.now third.now ≡ None) }
    ensures stop { IfErr result (λ stop. IsStop (parts_fault first.now second.now third.now) stop) }
{
    let mut variables = Variables::none();
    let head = head(alloc, first, &mut variables)?;
    let guards = guards(alloc, first, &variables, second)?;
    let body = body(alloc, first, &variables, third)?;
    let asked = asked_parts(&head);
    Ok(Clause {
        head,
        guards,
        body,
        places: variables.places(),
        asked,
    })
}

// Guards, where this head holds these variables.
fn guards(
    alloc: Global,
    head: &Term,
    variables: &Variables,
    list: &Term,
) -> Result<Vec<Expression>, Stop>
    requires { AreOf head.now variables.now }
    ensures ok { IfOk result (λ guards. list_of guards.items Nil ≡ list.now) }
    ensures well { OnOk result (guards_fault head.now list.now ≡ None) }
    ensures stop { IfErr result (λ stop. IsStop (guards_fault head.now list.now) stop) }
{
    if !is_proper(list) {
        return Err(Stop::Fault(SpecWhy::NotAClause));
    }
    each_guard(alloc, head, variables, list)
}

// The guards of a proper list.
#[tactic(auto, using(ca_term::proofs::Lists::list_push), unfolding(ca_match::specs::Specification::each_fault))]
fn each_guard(
    alloc: Global,
    head: &Term,
    variables: &Variables,
    list: &Term,
) -> Result<Vec<Expression>, Stop>
    requires variables { AreOf head.now variables.now }
    requires proper { is_proper list.now ≡ true }
    ensures ok { IfOk result (λ guards. list_of guards.items Nil ≡ list.now) }
    ensures well { OnOk result (each_fault head.now list.now ≡ None) }
    ensures stop { IfErr result (λ stop. IsStop (each_fault head.now list.now) stop) }
{
    let scope = Scope {
        head,
        variables,
        part: Part::Guard,
    };
    let mut guards = Vec::new(alloc);
    let mut rest = list;
    while let Kind::Cons(guard, others) = rest.kind() {
        guards.push(expression(alloc, &scope, guard)?)?;
        rest = others;
    }
    Ok(guards)
}

// A body, where this head holds these variables.
fn body(alloc: Global, head: &Term, variables: &Variables, list: &Term) -> Result<Expression, Stop>
    requires { AreOf head.now variables.now }
    ensures ok { IfOk result (λ expression. Cons expression Nil ≡ list.now) }
    ensures well { OnOk result (body_fault head.now list.now ≡ None) }
    ensures stop { IfErr result (λ stop. IsStop (body_fault head.now list.now) stop) }
{
    let Kind::Cons(only, behind) = list.kind() else {
        return Err(Stop::Fault(SpecWhy::BadBody));
    };
    if !matches!(behind.kind(), Kind::Nil) {
        return Err(Stop::Fault(SpecWhy::BadBody));
    }
    let scope = Scope {
        head,
        variables,
        part: Part::Body,
    };
    expression(alloc, &scope, only)
}
