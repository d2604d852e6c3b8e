//! Results of objects' codes, where a head, guards and a body are told by parts of the code alone.
ghost use Rattle.std.specs.Prelude.{◌≡◌, ◌≤◌, ◌∷◌, [], Some, IfOk, IfSome, IsSome, is_some, length, true};
ghost use Rattle.ca_term.specs.Tree.{Nil, Tree, list_of};
ghost use Rattle.ca_match.specs.Match.{clause_result, is_truth, no_bindings, pass, value};
ghost use Rattle.ca_match.specs.OperatorView.{meaning_of, name_of};
ghost use Rattle.ca_match.specs.Operators.{Short, applied, truth};
ghost use Rattle.ca_order.specs.CodesView.{tree_of};
ghost use Rattle.ca_spec.specs.ByCode.{AreBound, IsPlain, are_plain, call_of_one, is_comparison, is_operand, is_plain, is_test};
ghost use Rattle.ca_spec.specs.ClauseView.{tree_of_clause};
ghost use Rattle.ca_spec.specs.PartBound.{parts_of, scene_in};
ghost use Rattle.ca_spec.specs.Places.{places};
ghost use Rattle.ca_spec.specs.QuickView.{IsByCode, IsKnown, IsTold};
ghost use Rattle.ca_spec.specs.Reached.{AreShort, IsReached};

use crate::clause::Clause;
use crate::expression::{Expression, Form};
use crate::fitted::bound_part;
use crate::fitting::fit_object;
use ca_match::Operator;
use ca_order::Part;
use ca_term::Term;

// The code of an expression's value, where that is a part of the object's code or a constant's code.
#[tactic(auto, using(crate::proofs::Values::expression_values))]
#[inline(always)]
fn operand<'a>(
    expression: &'a Expression,
    object: Part<'a>,
    table: &[Option<Part<'a>>],
) -> Option<Part<'a>>
    ensures part { IfSome result (λ part. Some (tree_of part) ≡ value (scene_in object.entry table.now) expression.now) }
    ensures told { (head : Tree) → AreBound head (parts_of table.now) → is_operand head expression.now ≡ true → IsSome result }
{
    match &expression.form {
        Form::Variable(number) => bound_part(*number as usize, table),
        Form::Whole => Some(object),
        Form::Literal(constant) => constant.part(),
        Form::Constant(constant) => constant.part(),
        Form::AllBound | Form::Tuple(_) | Form::List(_, _) | Form::One(_, _) | Form::Two(_, _, _) =>
            None,
    }
}

// Whether an expression is of a kind whose value may be a part of the object's code or a constant's code.
#[inline(always)]
pub(crate) fn may_be_part(expression: &Expression) -> bool
    ensures { (head : Tree) → is_operand head expression.now ≡ true → result ≡ true }
{
    match &expression.form {
        Form::Variable(_) | Form::Whole | Form::Literal(_) | Form::Constant(_) => true,
        Form::AllBound | Form::Tuple(_) | Form::List(_, _) | Form::One(_, _) | Form::Two(_, _, _) =>
            false,
    }
}

// Whether a comparison of two terms holds, by their codes, or `None` for other operators.
#[inline(always)]
fn compared(operator: Operator, a: Part<'_>, b: Part<'_>) -> Option<bool>
    ensures holds { IfSome result (λ holds. Some (truth holds) ≡ applied (meaning_of operator) (Some (tree_of a.entry) ∷ Some (tree_of b.entry) ∷ [])) }
    ensures told { is_some result ≡ is_comparison (name_of operator) }
{
    let order = a.order(b);
    match operator {
        Operator::Greater => Some(order.is_gt()),
        Operator::GreaterOrEqual => Some(order.is_ge()),
        Operator::Less => Some(order.is_lt()),
        Operator::LessOrEqual => Some(order.is_le()),
        Operator::Equal => Some(order.is_eq()),
        Operator::ExactlyEqual => Some(order.is_eq()),
        Operator::Unequal => Some(order.is_ne()),
        Operator::ExactlyUnequal => Some(order.is_ne()),
        _ => None,
    }
}

// Whether a test of a term's kind holds, by its code, or `None` for other operators.
#[tactic(auto, using(crate::proofs::Operands::kind_tests))]
fn tested(operator: Operator, a: Part<'_>) -> Option<bool>
    ensures holds { IfSome result (λ holds. Some (truth holds) ≡ applied (meaning_of operator) (Some (tree_of a.entry) ∷ [])) }
    ensures told { is_some result ≡ is_test (name_of operator) }
{
    let rank = a.rank();
    match operator {
        Operator::IsInteger => Some(rank == 0),
        Operator::IsNumber => Some(rank == 0),
        Operator::IsAtom => Some(rank == 1),
        Operator::IsTuple => Some(rank == 2),
        Operator::IsList => Some(rank == 3 || rank == 4),
        Operator::IsBinary => Some(rank == 5),
        _ => None,
    }
}

// The truth value that a guard's value is, where it is a comparison or a test of parts and constants, or `andalso`, `orelse` or `not` of such guards.
#[cycle(known)]
#[inline(always)]
fn known<'a>(guard: &'a Expression, object: Part<'a>, table: &[Option<Part<'a>>]) -> Option<bool>
    ensures known { IfSome result (λ known. Some (truth known) ≡ value (scene_in object.entry table.now) guard.now) }
    ensures told { (head : Tree) → AreBound head (parts_of table.now) → is_plain head guard.now ≡ true → IsSome result }
{
    match &guard.form {
        Form::Two(operator, a, b) => match operator.stop() {
            Some(stop) => known_short(stop, a, b, object, table),
            None => known_comparison(*operator, a, b, object, table),
        },
        Form::One(operator, a) => known_of_one(*operator, a, object, table),
        Form::Variable(_)
        | Form::Whole
        | Form::AllBound
        | Form::Literal(_)
        | Form::Constant(_)
        | Form::Tuple(_)
        | Form::List(_, _) => None,
    }
}

// Whether a comparison of parts and constants holds.
#[inline(always)]
fn known_comparison<'a>(
    operator: Operator,
    a: &'a Expression,
    b: &'a Expression,
    object: Part<'a>,
    table: &[Option<Part<'a>>],
) -> Option<bool>
    ensures known { let scene = scene_in object.entry table.now in
        IfSome result (λ known. Some (truth known) ≡ applied (meaning_of operator) (value scene a.now ∷ value scene b.now ∷ [])) }
    ensures told { (head : Tree) → AreBound head (parts_of table.now) → is_comparison (name_of operator) ≡ true → is_operand head a.now ≡ true
        → is_operand head b.now ≡ true → IsSome result }
{
    let a = operand(a, object, table)?;
    let b = operand(b, object, table)?;
    compared(operator, a, b)
}

// The value of `andalso` or `orelse`, which stops at this truth value of the first argument.
#[cycle(known)]
#[inline(never)]
#[tactic(auto, using(crate::proofs::Operands::short_known))]
fn known_short<'a>(
    stop: bool,
    a: &'a Expression,
    b: &'a Expression,
    object: Part<'a>,
    table: &[Option<Part<'a>>],
) -> Option<bool>
    ensures known { let scene = scene_in object.entry table.now in
        IfSome result (λ known. Some (truth known) ≡ applied (Short stop) (value scene a.now ∷ value scene b.now ∷ [])) }
    ensures told { (head : Tree) → AreBound head (parts_of table.now) → is_plain head a.now ≡ true → is_plain head b.now ≡ true → IsSome result }
{
    let first = known(a, object, table)?;
    if first == stop {
        return Some(first);
    }
    known(b, object, table)
}

// The value of `not`, or of a test of a part or a constant.
#[cycle(known)]
#[inline(never)]
#[tactic(auto, using(crate::proofs::Operands::value_of_one_known))]
fn known_of_one<'a>(
    operator: Operator,
    a: &'a Expression,
    object: Part<'a>,
    table: &[Option<Part<'a>>],
) -> Option<bool>
    ensures known { let scene = scene_in object.entry table.now in
        IfSome result (λ known. Some (truth known) ≡ applied (meaning_of operator) (value scene a.now ∷ [])) }
    ensures told { (head : Tree) → AreBound head (parts_of table.now) → is_plain head (call_of_one operator a.now) ≡ true → IsSome result }
{
    if let Operator::Not = operator {
        let holds = known(a, object, table)?;
        return Some(!holds);
    }
    tested(operator, operand(a, object, table)?)
}

// Whether a guard is true, where that is known.
#[inline(always)]
#[tactic(auto, using(crate::proofs::Operands::truth_known))]
fn holds<'a>(guard: &'a Expression, object: Part<'a>, table: &[Option<Part<'a>>]) -> Option<bool>
    ensures holds { IfSome result (λ holds. is_truth (value (scene_in object.entry table.now) guard.now) ≡ holds) }
    ensures told { (head : Tree) → AreBound head (parts_of table.now) → is_plain head guard.now ≡ true → IsSome result }
{
    let known = known(guard, object, table)?;
    Some(known)
}

// Whether all guards are true, where each one up to the first that isn't is known to be true or not.
#[tactic(auto, using(crate::proofs::Values::guard_values))]
#[inline(always)]
pub(crate) fn pass<'a>(
    guards: &'a [Expression],
    object: Part<'a>,
    table: &[Option<Part<'a>>],
) -> Option<bool>
    ensures passed { IfSome result (λ passed. passed ≡ pass (scene_in object.entry table.now) (list_of guards.now Nil)) }
    ensures told { (head : Tree) → AreBound head (parts_of table.now) → are_plain head (list_of guards.now Nil) ≡ true → IsSome result }
{
    for guard in guards {
        match holds(guard, object, table) {
            Some(true) => {}
            told => return told,
        }
    }
    Some(true)
}

// What is known of a clause's result without decoding more than the result.
#[derive(Clone, Copy)]
pub(crate) enum Quick<'a> {
    // it has none
    None,
    // it is the term of this code
    Part(Part<'a>),
    // it is this term
    Term(&'a Term),
    // nothing
    Unknown,
}

// Whether a clause's head fits an object and its guards are all true, where the object's code tells; with this table, which is empty.
#[inline(always)]
#[tactic(auto, using(crate::proofs::QuickResults::known_clauses, crate::proofs::PlainClauses::head_bound))]
pub(crate) fn passed<'a>(
    clause: &'a Clause,
    object: Part<'a>,
    table: &mut [Option<Part<'a>>],
) -> Option<bool>
    requires room { places clause.now.head ≤ length table.old }
    requires none { parts_of table.old ≡ no_bindings }
    ensures known { IsKnown result clause.entry.now object.entry table.new }
    ensures told { AreShort clause.entry.now.head → are_plain clause.entry.now.head (list_of clause.entry.now.guards.items Nil) ≡ true → IsSome result }
    ensures bound { result ≡ Some true → AreBound clause.entry.now.head (parts_of table.new) }
{
    match fit_object(&clause.head, clause.asked, object, table) {
        Some(true) => pass(clause.guards.as_slice(), object, table),
        Some(false) => Some(false),
        None => None,
    }
}

// What is told of a clause's result where that is known of its head and its guards.
#[inline(always)]
#[tactic(auto, using(crate::proofs::QuickResults::told_clauses))]
pub(crate) fn result_where<'a>(
    known: Option<bool>,
    clause: &'a Clause,
    object: Part<'a>,
    table: &[Option<Part<'a>>],
) -> Quick<'a>
    requires { IsKnown known clause.now object table.now }
    ensures told { IsTold result (clause_result (tree_of_clause clause.entry.now) (tree_of object.entry)) }
    ensures reached { IsReached result clause.entry.now.head (tree_of object.entry) }
    ensures coded { IsSome known → (known ≡ Some true → AreBound clause.entry.now.head (parts_of table.now))
        → is_operand clause.entry.now.head clause.entry.now.body ≡ true → IsByCode result }
{
    match known {
        Some(true) => told_value(&clause.body, object, table),
        Some(false) => Quick::None,
        None => Quick::Unknown,
    }
}

// What is told of a clause's result by the object's code, with this table, which is empty.
#[inline(always)]
pub(crate) fn quick_result<'a>(
    clause: &'a Clause,
    object: Part<'a>,
    table: &mut [Option<Part<'a>>],
) -> Quick<'a>
    requires room { places clause.now.head ≤ length table.old }
    requires none { parts_of table.old ≡ no_bindings }
    ensures told { IsTold result (clause_result (tree_of_clause clause.entry.now) (tree_of object.entry)) }
    ensures reached { IsReached result clause.entry.now.head (tree_of object.entry) }
    ensures coded { IsPlain clause.entry.now.head (list_of clause.entry.now.guards.items Nil) clause.entry.now.body → IsByCode result }
{
    let known = passed(clause, object, table);
    result_where(known, clause, object, table)
}

// What is told of a body's value.
#[inline(always)]
#[tactic(auto, using(crate::proofs::Values::expression_values))]
fn told_value<'a>(body: &'a Expression, object: Part<'a>, table: &[Option<Part<'a>>]) -> Quick<'a>
    ensures told { IsTold result (value (scene_in object.entry table.now) body.now) }
    ensures coded { (head : Tree) → AreBound head (parts_of table.now) → is_operand head body.now ≡ true → IsByCode result }
{
    match operand(body, object, table) {
        Some(part) => Quick::Part(part),
        None => match &body.form {
            Form::Literal(constant) => Quick::Term(constant.term()),
            Form::Constant(constant) => Quick::Term(constant.term()),
            _ => Quick::Unknown,
        },
    }
}
