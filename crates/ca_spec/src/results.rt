//! What a specification makes of an object.
ghost use Rattle.std.specs.Prelude.{◌≡◌, ◌≤◌, IfOk, OnErr, length, option_map};
ghost use Rattle.ca_term.specs.Tree.{Nil, list_of};
ghost use Rattle.ca_match.specs.Match.{clause_result, no_bindings, result_of};
ghost use Rattle.ca_match.specs.ValueView.{tree_of_value};
ghost use Rattle.ca_spec.specs.Bound.{table_of};
ghost use Rattle.ca_spec.specs.ClauseView.{tree_of_clause, trees_of_clauses};
ghost use Rattle.ca_spec.specs.Places.{places};
ghost use Rattle.ca_spec.specs.Reached.{MayFit, SomeMayFit};

use crate::clause::Clause;
use crate::evaluation::{Evaluated, pass, value};
use crate::fitted::Fitted;
use crate::matching::bind;
use crate::spec::Spec;
use ca_term::Term;
use std::alloc::{AllocError, Global};

/// The result that a specification gives an object: that of the first clause that holds, or `None` where none holds. A clause holds where its
/// head fits, its guards all have the value true and its body doesn't fail. Memory is taken only where a head fits, and for what is new: for tuples
/// and list cells of expressions, parts of these, and the result.
/// Source: the ERTS user's guide, "Match Specifications in Erlang"; that a value over `MOST_DEPTH` deep fails is this project's own.
#[tactic(auto, using(crate::proofs::ClauseResults::of_source))]
pub fn apply(alloc: Global, spec: &Spec, object: &Term) -> Result<Option<Term>, AllocError>
    ensures found { IfOk result (λ found. found ≡ result_of spec.now object.now) }
    ensures lack { OnErr result (SomeMayFit spec.now object.now) }
{
    first_result(alloc, spec.clauses.as_slice(), object)
}

// The result of the first clause that holds.
#[tactic(auto, using(crate::proofs::ClauseResults::first_results))]
fn first_result(
    alloc: Global,
    clauses: &[Clause],
    object: &Term,
) -> Result<Option<Term>, AllocError>
    ensures found { IfOk result (λ found. found ≡ result_of (list_of (trees_of_clauses clauses.now) Nil) object.now) }
    ensures lack { OnErr result (SomeMayFit (list_of (trees_of_clauses clauses.now) Nil) object.now) }
{
    for clause in clauses {
        if let Some(value) = result_of_clause(alloc, clause, object)? {
            return Ok(Some(value.into_term(alloc)?));
        }
    }
    Ok(None)
}

// With so many places the table of most clauses is made in a few stores.
pub(crate) const FEW: usize = 8;

// The result of a clause where it holds, with a table for its variables.
pub(crate) fn result_of_clause<'a>(
    alloc: Global,
    clause: &'a Clause,
    object: &'a Term,
) -> Evaluated<'a>
    ensures value { IfOk result (λ v. option_map tree_of_value v ≡ clause_result (tree_of_clause clause.now) object.now) }
    ensures lack { OnErr result (MayFit clause.now.head object.now) }
{
    if clause.places <= FEW {
        let mut table: [Option<&'a Term>; FEW] = [None; FEW];
        return result_with(alloc, clause, object, &mut table);
    }
    let mut table: [Option<&'a Term>; 100] = [None; 100];
    result_with(alloc, clause, object, &mut table)
}

// The result of a clause where it holds, with this table, which is empty.
#[tactic(auto, using(crate::proofs::ClauseResults::clause_results, crate::proofs::Reaching::reached))]
fn result_with<'a>(
    alloc: Global,
    clause: &'a Clause,
    object: &'a Term,
    table: &mut [Option<&'a Term>],
) -> Evaluated<'a>
    requires room { places clause.now.head ≤ length table.old }
    requires none { table_of table.old ≡ no_bindings }
    ensures value { IfOk result (λ v. option_map tree_of_value v ≡ clause_result (tree_of_clause clause.now) object.now) }
    ensures lack { OnErr result (MayFit clause.now.head object.now) }
{
    if !bind(&clause.head, object, table) {
        return Ok(None);
    }
    let fitted = Fitted::Terms { object, table };
    if !pass(alloc, clause.guards.as_slice(), &fitted)? {
        return Ok(None);
    }
    value(alloc, &clause.body, &fitted)
}
