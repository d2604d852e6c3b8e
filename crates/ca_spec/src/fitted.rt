//! Objects that the head of a clause fits.
ghost use Rattle.std.specs.Prelude.{◌≡◌, IfOk, option_map};
ghost use Rattle.ca_term.specs.Tree.{Nil, list_of};
ghost use Rattle.ca_match.specs.Match.{all_bound, bound};
ghost use Rattle.ca_match.specs.ValueView.{tree_of_value};
ghost use Rattle.ca_order.specs.CodesView.{tree_of};
ghost use Rattle.ca_spec.specs.Bound.{bound_at, table_of};
ghost use Rattle.ca_spec.specs.FittedView.{scene_at};
ghost use Rattle.ca_spec.specs.PartBound.{part_at, parts_of};

use ca_match::{Value, push, push_copy};
use ca_order::Part;
use ca_term::{Term, Terms};
use std::alloc::{AllocError, Global};

/// An object with what its clause's head bound there: as terms, or as parts of the object's code, of which one is decoded where its value is asked for.
#[derive(Clone, Copy)]
pub(crate) enum Fitted<'a, 't> {
    Terms {
        object: &'a Term,
        table: &'t [Option<&'a Term>],
    },
    Parts {
        object: Part<'a>,
        table: &'t [Option<Part<'a>>],
    },
}

// The object.
pub(crate) fn whole<'a>(alloc: Global, fitted: &Fitted<'a, '_>) -> Result<Value<'a>, AllocError>
    ensures { IfOk result (λ v. tree_of_value v ≡ (scene_at fitted.now).object) }
{
    match fitted {
        Fitted::Terms { object, table: _ } => Ok(Value::Lent(object)),
        Fitted::Parts { object, table: _ } => Ok(Value::Owned(object.term(alloc)?)),
    }
}

// What is bound to a variable, if anything is.
pub(crate) fn variable<'a>(
    alloc: Global,
    number: usize,
    fitted: &Fitted<'a, '_>,
) -> Result<Option<Value<'a>>, AllocError>
    ensures { IfOk result (λ v. option_map tree_of_value v ≡ bound (scene_at fitted.now).bindings number) }
{
    match fitted {
        Fitted::Terms { object: _, table } => match bound_term(number, table) {
            Some(term) => Ok(Some(Value::Lent(term))),
            None => Ok(None),
        },
        Fitted::Parts { object: _, table } => match bound_part(number, table) {
            Some(part) => Ok(Some(Value::Owned(part.term(alloc)?))),
            None => Ok(None),
        },
    }
}

// What is bound, in the order of the variables' numbers.
pub(crate) fn all_variables(alloc: Global, fitted: &Fitted<'_, '_>) -> Result<Terms, AllocError>
    ensures { IfOk result (λ terms. list_of terms.items Nil ≡ all_bound (scene_at fitted.now).bindings) }
{
    match fitted {
        Fitted::Terms { object: _, table } => bound_terms(alloc, table),
        Fitted::Parts { object: _, table } => bound_parts(alloc, table),
    }
}

// What is bound to a variable in a table of terms.
#[tactic(auto, using(crate::proofs::Tables::bound_in, crate::proofs::Tables::none_behind))]
fn bound_term<'a>(number: usize, table: &[Option<&'a Term>]) -> Option<&'a Term>
    ensures { bound_at result ≡ bound (table_of table.now) number }
{
    if number < table.len() {
        table[number]
    } else {
        None
    }
}

// What is bound to a variable in a table of parts.
#[inline(always)]
#[tactic(auto, using(crate::proofs::PartTables::bound_in, crate::proofs::PartTables::none_behind))]
pub(crate) fn bound_part<'a>(number: usize, table: &[Option<Part<'a>>]) -> Option<Part<'a>>
    ensures { part_at result ≡ bound (parts_of table.now) number }
{
    if number < table.len() {
        table[number]
    } else {
        None
    }
}

// Copies of what is bound in a table of terms.
#[tactic(auto, using(crate::proofs::Tables::bound_table))]
fn bound_terms(alloc: Global, table: &[Option<&Term>]) -> Result<Terms, AllocError>
    ensures { IfOk result (λ terms. list_of terms.items Nil ≡ all_bound (table_of table.now)) }
{
    let mut terms = Terms::new(alloc);
    for place in table {
        if let Some(term) = place {
            push_copy(alloc, &mut terms, term)?;
        }
    }
    Ok(terms)
}

// The terms of what is bound in a table of parts.
#[tactic(auto, using(crate::proofs::PartTables::part_table))]
fn bound_parts(alloc: Global, table: &[Option<Part<'_>>]) -> Result<Terms, AllocError>
    ensures { IfOk result (λ terms. list_of terms.items Nil ≡ all_bound (parts_of table.now)) }
{
    let mut terms = Terms::new(alloc);
    for place in table {
        if let Some(part) = place {
            push(&mut terms, part.term(alloc)?)?;
        }
    }
    Ok(terms)
}
