//! Values of expressions.
ghost use Rattle.std.specs.Prelude.{◌≡◌, [], ◌∷◌, ◌++◌, ◌<◌, IfOk, OnOk, None, Some, length, option_and_then, option_map};
ghost use Rattle.ca_term.specs.Tree.{Nil, list_of, row_of};
ghost use Rattle.ca_match.specs.Match.{all_bound, all_values, is_truth, pass, tuple_of, value, values, within};
ghost use Rattle.ca_match.specs.OperatorView.{meaning_of, stop_of};
ghost use Rattle.ca_match.specs.Operators.{Short, applied, truth, truth_of};
ghost use Rattle.ca_match.specs.ValueView.{tree_of_value};
ghost use Rattle.ca_spec.specs.FittedView.{scene_at};

use crate::expression::{Expression, Form};
use crate::fitted::{Fitted, all_variables, variable, whole};
use ca_match::{Operator, Value, push, truth, truth_value};
use ca_term::{Term, TermFault, Terms, list, nil, tuple};
use std::alloc::{AllocError, Global};

// A value, where the expression doesn't fail, or want of memory.
pub(crate) type Evaluated<'a> = Result<Option<Value<'a>>, AllocError>;

// The value of an expression for an object that the head fits.
#[cycle(value)]
#[tactic(auto, using(crate::proofs::Values::expression_values))]
pub(crate) fn value<'a>(
    alloc: Global,
    expression: &'a Expression,
    fitted: &Fitted<'a, '_>,
) -> Evaluated<'a>
    ensures { IfOk result (λ v. option_map tree_of_value v ≡ value (scene_at fitted.now) expression.now) }
{
    match &expression.form {
        Form::Variable(number) => variable(alloc, *number as usize, fitted),
        Form::Whole => Ok(Some(whole(alloc, fitted)?)),
        Form::AllBound => all_bound(alloc, fitted),
        Form::Literal(term) => Ok(Some(Value::Lent(term.term()))),
        Form::Constant(term) => Ok(Some(Value::Lent(term.term()))),
        Form::Tuple(parts) => tuple_value(alloc, parts.as_slice(), fitted),
        Form::List(heads, tail) => list_value(alloc, heads.as_slice(), tail, fitted),
        Form::One(operator, a) => value_of_one(alloc, *operator, a, fitted),
        Form::Two(operator, a, b) => match operator.stop() {
            Some(stop) => short_value(alloc, stop, a, b, fitted),
            None => value_of_two(alloc, *operator, a, b, fitted),
        },
    }
}

// The value of an operator of one argument. It stands apart, since a function clears the room of all its arms' values at each call.
#[cycle(value)]
#[tactic(auto, using(crate::proofs::Values::two_values))]
fn value_of_one<'a>(
    alloc: Global,
    operator: Operator,
    a: &'a Expression,
    fitted: &Fitted<'a, '_>,
) -> Evaluated<'a>
    ensures { let scene = scene_at fitted.now in
        IfOk result (λ v. option_map tree_of_value v ≡ applied (meaning_of operator) (value scene a.now ∷ [])) }
{
    let Some(a) = value(alloc, a, fitted)? else {
        return Ok(None);
    };
    operator.value_of_one(alloc, a)
}

// The list of what is bound.
fn all_bound<'a>(alloc: Global, fitted: &Fitted<'_, '_>) -> Evaluated<'a>
    ensures { IfOk result (λ v. option_map tree_of_value v ≡ within (all_bound (scene_at fitted.now).bindings)) }
{
    listed(alloc, all_variables(alloc, fitted)?, nil())
}

// The list of these terms with this tail, unless it is too deep.
#[tactic(auto, using(crate::proofs::Built::shallow, crate::proofs::Built::deep))]
fn listed<'a>(alloc: Global, items: Terms, tail: Term) -> Evaluated<'a>
    ensures { IfOk result (λ v. option_map tree_of_value v ≡ within (list_of items.items tail)) }
{
    match list(alloc, items, tail) {
        Ok(term) => Ok(Some(Value::Owned(term))),
        Err(TermFault::TooDeep) => Ok(None),
        Err(TermFault::AtomTooLong | TermFault::TooWide | TermFault::NoMemory) => Err(AllocError),
    }
}

// The tuple of values. An expression has no more elements than a tuple may have, so `tuple` refuses none as too wide.
#[cycle(value)]
#[tactic(auto, using(crate::proofs::Built::tuples_built))]
fn tuple_value<'a>(alloc: Global, parts: &'a [Expression], fitted: &Fitted<'a, '_>) -> Evaluated<'a>
    ensures { IfOk result (λ v. option_map tree_of_value v ≡ tuple_of (values (scene_at fitted.now) (row_of parts.now))) }
{
    let Some(items) = terms(alloc, parts, fitted)? else {
        return Ok(None);
    };
    match tuple(items) {
        Ok(term) => Ok(Some(Value::Owned(term))),
        Err(TermFault::TooDeep) => Ok(None),
        Err(TermFault::AtomTooLong | TermFault::TooWide | TermFault::NoMemory) => Err(AllocError),
    }
}

// The list of values with the value of its tail.
#[cycle(value)]
#[tactic(auto, using(crate::proofs::Values::list_values))]
fn list_value<'a>(
    alloc: Global,
    heads: &'a [Expression],
    tail: &'a Expression,
    fitted: &Fitted<'a, '_>,
) -> Evaluated<'a>
    requires { 0 < length heads.now }
    ensures { IfOk result (λ v. option_map tree_of_value v ≡ value (scene_at fitted.now) (list_of heads.now tail.now)) }
{
    let Some(items) = terms(alloc, heads, fitted)? else {
        return Ok(None);
    };
    match value(alloc, tail, fitted)? {
        Some(tail) => listed(alloc, items, tail.into_term(alloc)?),
        None => Ok(None),
    }
}

// The values of several expressions as terms, unless one fails.
#[cycle(value)]
#[tactic(auto, using(ca_match::proofs::Gathered::part_values))]
fn terms<'a>(
    alloc: Global,
    parts: &'a [Expression],
    fitted: &Fitted<'a, '_>,
) -> Result<Option<Terms>, AllocError>
    ensures { IfOk result (λ terms. option_map (λ ts. ts.items) terms ≡ all_values (values (scene_at fitted.now) (row_of parts.now))) }
{
    let mut terms = Terms::new(alloc);
    for part in parts {
        let Some(value) = value(alloc, part, fitted)? else {
            return Ok(None);
        };
        push(&mut terms, value.into_term(alloc)?)?;
    }
    Ok(Some(terms))
}

// The value of an operator of two arguments that are both evaluated.
#[cycle(value)]
#[tactic(auto, using(crate::proofs::Values::two_values))]
fn value_of_two<'a>(
    alloc: Global,
    operator: Operator,
    a: &'a Expression,
    b: &'a Expression,
    fitted: &Fitted<'a, '_>,
) -> Evaluated<'a>
    requires { stop_of (meaning_of operator) ≡ None }
    ensures { let scene = scene_at fitted.now in
        IfOk result (λ v. option_map tree_of_value v ≡ applied (meaning_of operator) (value scene a.now ∷ value scene b.now ∷ [])) }
{
    let Some(a) = value(alloc, a, fitted)? else {
        return Ok(None);
    };
    let Some(b) = value(alloc, b, fitted)? else {
        return Ok(None);
    };
    operator.value_of_two(alloc, a, b)
}

// The value of `andalso` or `orelse`, which stops at this truth value of the first argument.
#[cycle(value)]
#[tactic(auto, using(crate::proofs::Values::short_values))]
fn short_value<'a>(
    alloc: Global,
    stop: bool,
    a: &'a Expression,
    b: &'a Expression,
    fitted: &Fitted<'a, '_>,
) -> Evaluated<'a>
    ensures { let scene = scene_at fitted.now in
        IfOk result (λ v. option_map tree_of_value v ≡ applied (Short stop) (value scene a.now ∷ value scene b.now ∷ [])) }
{
    match truth(&value(alloc, a, fitted)?) {
        Some(first) => {
            if first == stop {
                return Ok(Some(Value::Truth(first)));
            }
            Ok(truth_value(truth(&value(alloc, b, fitted)?)))
        }
        None => Ok(None),
    }
}

// Whether all guards have the value true.
#[tactic(auto, using(crate::proofs::Values::guard_values))]
pub(crate) fn pass<'a>(
    alloc: Global,
    guards: &'a [Expression],
    fitted: &Fitted<'a, '_>,
) -> Result<bool, AllocError>
    ensures { IfOk result (λ passed. passed ≡ pass (scene_at fitted.now) (list_of guards.now Nil)) }
{
    for guard in guards {
        if !holds(&value(alloc, guard, fitted)?) {
            return Ok(false);
        }
    }
    Ok(true)
}

// Whether a value is true.
fn holds(value: &Option<Value<'_>>) -> bool
    ensures { result ≡ is_truth (option_map tree_of_value value.now) }
{
    match truth(value) {
        Some(truth) => truth,
        None => false,
    }
}
