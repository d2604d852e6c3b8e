//! Expressions, compiled.
ghost use Rattle.std.specs.Prelude.{◌≡◌, ◌<◌, true, None, is_ok, length, codes, OnOk, IfOk, IfErr};
ghost use Rattle.ca_term.specs.Tree.{Atom, Cons, Tuple, Ends, More, list_of, row_of};
ghost use Rattle.ca_match.specs.OperatorView.{meaning_of, name_of};
ghost use Rattle.ca_match.specs.Operators.{count_of};
ghost use Rattle.ca_match.specs.Specification.{is_call};
ghost use Rattle.ca_spec.specs.ExpressionView.{is_itself};
ghost use Rattle.ca_spec.specs.Faults.{IsStop};
ghost use Rattle.ca_spec.specs.ScopeView.{IsScope, bad_in, call_fault_in, fault_in, faults_in, form_fault_in, part_of, tuple_fault_in};

use crate::constant::Constant;
use crate::expression::{Expression, Form};
use crate::fault::{SpecWhy, Stop};
use crate::scope::{Part, Scope};
use ca_match::{Operator, variable_number};
use ca_term::{Kind, Term};
use std::alloc::Global;

// An expression of a guard or a body.
#[cycle(expression)]
#[tactic(auto, unfolding(ca_match::specs::Specification::fault))]
pub(crate) fn expression(alloc: Global, scope: &Scope, term: &Term) -> Result<Expression, Stop>
    requires { IsScope scope.now }
    ensures ok { IfOk result (λ expression. expression ≡ term.now) }
    ensures well { OnOk result (fault_in scope.now term.now ≡ None) }
    ensures stop { IfErr result (λ stop. IsStop (fault_in scope.now term.now) stop) }
{
    match term.kind() {
        Kind::Atom(text) => name(alloc, scope, term, text),
        Kind::Tuple(items) => tuple(alloc, scope, items),
        Kind::Cons(first, behind) => cells(alloc, scope, first, behind),
        Kind::Int(_) | Kind::Nil | Kind::Bin(_) => itself(alloc, term),
    }
}

// An atom.
#[tactic(auto, unfolding(ca_match::specs::Specification::fault))]
fn name(alloc: Global, scope: &Scope, term: &Term, text: &str) -> Result<Expression, Stop>
    requires scope { IsScope scope.now }
    requires atom { term.now ≡ Atom text.now }
    ensures ok { IfOk result (λ expression. expression ≡ term.now) }
    ensures well { OnOk result (fault_in scope.now term.now ≡ None) }
    ensures stop { IfErr result (λ stop. IsStop (fault_in scope.now term.now) stop) }
{
    if text == "$_" {
        return Ok(Expression { form: Form::Whole });
    }
    if text == "$$" {
        return Ok(Expression {
            form: Form::AllBound,
        });
    }
    match variable_number(text) {
        Some(number) if scope.variables.has(number) => Ok(Expression {
            form: Form::Variable(number),
        }),
        Some(_) => Err(Stop::Fault(SpecWhy::Unbound)),
        None => itself(alloc, term),
    }
}

// An expression that is its own value.
fn itself(alloc: Global, term: &Term) -> Result<Expression, Stop>
    requires { is_itself term.now ≡ true }
    ensures ok { IfOk result (λ expression. expression ≡ term.now) }
    ensures err { IfErr result (λ stop. stop ≡ Stop.NoMemory) }
{
    Ok(Expression {
        form: Form::Literal(Constant::of(alloc, term)?),
    })
}

// A tuple: one that makes a tuple, a constant, or an operator with its arguments.
#[cycle(expression)]
#[tactic(auto, unfolding(ca_match::specs::Specification::form_fault))]
fn tuple(alloc: Global, scope: &Scope, items: &[Term]) -> Result<Expression, Stop>
    requires { IsScope scope.now }
    ensures ok { IfOk result (λ expression. expression ≡ Tuple (row_of items.now)) }
    ensures well { OnOk result (form_fault_in scope.now (row_of items.now) ≡ None) }
    ensures stop { IfErr result (λ stop. IsStop (form_fault_in scope.now (row_of items.now)) stop) }
{
    match items {
        [] => Err(scope.bad()),
        [only] => inner_tuple(alloc, scope, only),
        [name, arguments @ ..] => call(alloc, scope, name, arguments),
    }
}

// {{E1,..,En}} by its one element.
#[cycle(expression)]
#[tactic(auto, unfolding(ca_match::specs::Specification::tuple_fault))]
fn inner_tuple(alloc: Global, scope: &Scope, only: &Term) -> Result<Expression, Stop>
    requires { IsScope scope.now }
    ensures ok { IfOk result (λ expression. expression ≡ Tuple (More only.now Ends)) }
    ensures well { OnOk result (tuple_fault_in scope.now only.now ≡ None) }
    ensures stop { IfErr result (λ stop. IsStop (tuple_fault_in scope.now only.now) stop) }
{
    match only.kind() {
        Kind::Tuple(items) => Ok(Expression {
            form: Form::Tuple(expressions(alloc, scope, items)?),
        }),
        Kind::Int(_) | Kind::Atom(_) | Kind::Nil | Kind::Cons(_, _) | Kind::Bin(_) => {
            Err(scope.bad())
        }
    }
}

// Expressions, in order.
#[cycle(expression)]
#[tactic(auto, using(ca_term::proofs::Rows::nodes_item), unfolding(ca_match::specs::Specification::faults))]
fn expressions(alloc: Global, scope: &Scope, items: &[Term]) -> Result<Vec<Expression>, Stop>
    requires { IsScope scope.now }
    ensures ok { IfOk result (λ expressions. expressions.items ≡ items.now) }
    ensures well { OnOk result (faults_in scope.now (row_of items.now) ≡ None) }
    ensures stop { IfErr result (λ stop. IsStop (faults_in scope.now (row_of items.now)) stop) }
{
    let mut expressions = Vec::with_capacity(alloc, items.len())?;
    for item in items {
        expressions.push(expression(alloc, scope, item)?)?;
    }
    Ok(expressions)
}

// {const,T} or {Op,E1,..,En} by its name and its arguments.
#[cycle(expression)]
#[tactic(auto, using(crate::proofs::Calls::operator_faults))]
fn call(alloc: Global, scope: &Scope, name: &Term, arguments: &[Term]) -> Result<Expression, Stop>
    requires scope { IsScope scope.now }
    requires some { 0 < length arguments.now }
    ensures ok { IfOk result (λ expression. expression ≡ Tuple (More name.now (row_of arguments.now))) }
    ensures well { OnOk result (call_fault_in scope.now name.now (row_of arguments.now) ≡ None) }
    ensures stop { IfErr result (λ stop. IsStop (call_fault_in scope.now name.now (row_of arguments.now)) stop) }
{
    match name.kind() {
        Kind::Atom(text) if text == "const" => constant(alloc, scope, arguments),
        Kind::Atom(text) => {
            let operator = operator(scope, text, arguments.len())?;
            operation(alloc, scope, operator, arguments)
        }
        Kind::Int(_) | Kind::Tuple(_) | Kind::Nil | Kind::Cons(_, _) | Kind::Bin(_) => {
            Err(scope.bad())
        }
    }
}

// {const,T} by what stands behind the name.
#[tactic(auto, using(ca_term::proofs::Rows::size_row))]
fn constant(alloc: Global, scope: &Scope, arguments: &[Term]) -> Result<Expression, Stop>
    ensures ok { IfOk result (λ expression. expression ≡ Tuple (More (Atom (codes "const")) (row_of arguments.now))) }
    ensures well { OnOk result (call_fault_in scope.now (Atom (codes "const")) (row_of arguments.now) ≡ None) }
    ensures stop { IfErr result (λ stop. IsStop (call_fault_in scope.now (Atom (codes "const")) (row_of arguments.now)) stop) }
{
    match arguments {
        [term] => Ok(Expression {
            form: Form::Constant(Constant::of(alloc, term)?),
        }),
        _ => Err(scope.bad()),
    }
}

// The operator of this name with so many arguments.
fn operator(scope: &Scope, text: &str, count: usize) -> Result<Operator, Stop>
    ensures named { IfOk result (λ operator. name_of operator ≡ text.now) }
    ensures counted { IfOk result (λ operator. count_of (meaning_of operator) ≡ count) }
    ensures well { is_ok result ≡ is_call (part_of scope.now.part) text.now count }
    ensures stop { IfErr result (λ stop. IsStop (bad_in scope.now) stop) }
{
    match (scope.part, Operator::of(text)) {
        (Part::Guard, Some(operator)) if operator.count() == count => Ok(operator),
        _ => Err(scope.bad()),
    }
}

// {Op,E1,..,En} by the operator and its arguments.
#[cycle(expression)]
#[tactic(auto, using(crate::proofs::Calls::operand_faults), unfolding(ca_match::specs::Specification::faults))]
fn operation(
    alloc: Global,
    scope: &Scope,
    operator: Operator,
    arguments: &[Term],
) -> Result<Expression, Stop>
    requires scope { IsScope scope.now }
    requires counted { count_of (meaning_of operator) ≡ length arguments.now }
    ensures ok { IfOk result (λ expression. expression ≡ Tuple (More (Atom (name_of operator)) (row_of arguments.now))) }
    ensures well { OnOk result (faults_in scope.now (row_of arguments.now) ≡ None) }
    ensures stop { IfErr result (λ stop. IsStop (faults_in scope.now (row_of arguments.now)) stop) }
{
    match arguments {
        [only] => {
            let only = expression(alloc, scope, only)?;
            with_one(alloc, operator, only)
        }
        [first, second] => {
            let first = expression(alloc, scope, first)?;
            let second = expression(alloc, scope, second)?;
            with_two(alloc, operator, first, second)
        }
        _ => unreachable!(),
    }
}

// An operator with its one argument.
fn with_one(alloc: Global, operator: Operator, only: Expression) -> Result<Expression, Stop>
    requires { count_of (meaning_of operator) ≡ 1 }
    ensures ok { IfOk result (λ expression. expression ≡ Tuple (More (Atom (name_of operator)) (More only Ends))) }
    ensures err { IfErr result (λ stop. stop ≡ Stop.NoMemory) }
{
    Ok(Expression {
        form: Form::One(operator, Box::new(alloc, only)?),
    })
}

// An operator with its two arguments.
fn with_two(
    alloc: Global,
    operator: Operator,
    first: Expression,
    second: Expression,
) -> Result<Expression, Stop>
    requires { count_of (meaning_of operator) ≡ 2 }
    ensures ok { IfOk result (λ expression. expression ≡ Tuple (More (Atom (name_of operator)) (More first (More second Ends)))) }
    ensures err { IfErr result (λ stop. stop ≡ Stop.NoMemory) }
{
    Ok(Expression {
        form: Form::Two(operator, Box::new(alloc, first)?, Box::new(alloc, second)?),
    })
}

// A list by its first head and what stands behind it. It goes along the tail in a loop: a list may be longer than the stack is deep.
#[cycle(expression)]
#[tactic(auto, using(ca_term::proofs::Lists::list_push), unfolding(ca_match::specs::Specification::fault))]
fn cells(alloc: Global, scope: &Scope, first: &Term, behind: &Term) -> Result<Expression, Stop>
    requires { IsScope scope.now }
    ensures ok { IfOk result (λ expression. expression ≡ Cons first.now behind.now) }
    ensures well { OnOk result (fault_in scope.now (Cons first.now behind.now) ≡ None) }
    ensures stop { IfErr result (λ stop. IsStop (fault_in scope.now (Cons first.now behind.now)) stop) }
{
    let mut heads = Vec::new(alloc);
    heads.push(expression(alloc, scope, first)?)?;
    let mut rest = behind;
    while let Kind::Cons(head, tail) = rest.kind() {
        heads.push(expression(alloc, scope, head)?)?;
        rest = tail;
    }
    let tail = expression(alloc, scope, rest)?;
    list_with(alloc, heads, tail)
}

// The list of these heads with this tail.
fn list_with(alloc: Global, heads: Vec<Expression>, tail: Expression) -> Result<Expression, Stop>
    requires { 0 < length heads.items }
    ensures ok { IfOk result (λ expression. expression ≡ list_of heads.items tail) }
    ensures err { IfErr result (λ stop. stop ≡ Stop.NoMemory) }
{
    Ok(Expression {
        form: Form::List(heads, Box::new(alloc, tail)?),
    })
}
