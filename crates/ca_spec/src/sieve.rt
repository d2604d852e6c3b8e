//! What objects must be for a specification to give them a result, as far as one element tells.
ghost use Rattle.std.specs.Prelude.{◌≡◌, ◌<◌, IfSome, None, Some, false, is_some, option_map, true};
ghost use Rattle.std.specs.Ordering.{ordering_reverse};
ghost use Rattle.std.specs.declared.cmp.Ordering.{Ordering};
ghost use Rattle.ca_match.specs.Match.{Scene, clause_result, value};
ghost use Rattle.ca_match.specs.OperatorView.{name_of};
ghost use Rattle.ca_match.specs.Operators.{is_tuple};
ghost use Rattle.ca_match.specs.Specification.{is_variable};
ghost use Rattle.ca_match.specs.Spelling.{variable_name};
ghost use Rattle.ca_order.specs.CodesView.{tree_of};
ghost use Rattle.ca_order.specs.Languages.{IsTermCode};
ghost use Rattle.ca_term.specs.Code.{code_of};
ghost use Rattle.ca_term.specs.Tree.{Atom, IsTerm, Tree, Tuple, row_of};
ghost use Rattle.ca_spec.specs.ByCode.{is_comparison, is_constant, variable_in};
ghost use Rattle.ca_spec.specs.ClauseView.{tree_of_clause};
ghost use Rattle.ca_spec.specs.SieveView.{Compares, IsFound, IsGuardOf, IsSieveOf, IsSoAt, StandsAt, has, passes};
ghost use Rattle.ca_spec.specs.SieveView.{compared, compared_by, compared_first, first_place};

use crate::clause::Clause;
use crate::expression::{Expression, Form};
use crate::pattern::{Pattern, Shape};
use crate::spec::Spec;
use ca_match::Operator;
use ca_order::{Codes, Part};
use std::cmp::Ordering;

// In which orders a comparison is true.
#[derive(Clone, Copy)]
pub(crate) struct Orders {
    pub(crate) less: bool,
    pub(crate) equal: bool,
    pub(crate) greater: bool,
}

/// Lets the tuples pass that have an element at a place, counted from 0, which stands to a constant in one of some orders. It tells of most objects
/// without a result that they have none, by one element and without a table of variables. Contracts see it by `passes`.
#[derive(Clone, Copy)]
pub struct Sieve<'a> {
    pub(crate) place: usize,
    pub(crate) orders: Orders,
    pub(crate) constant: Part<'a>,
}

// Whether an order is one of some.
#[inline(always)]
fn has(orders: Orders, order: Ordering) -> bool
    ensures { result ≡ has orders order }
{
    match order {
        Ordering::Less => orders.less,
        Ordering::Equal => orders.equal,
        Ordering::Greater => orders.greater,
    }
}

impl<'a> Sieve<'a> {
    /// The sieve of a specification of one clause whose first guard compares a variable, which is one of the head's parts, with a constant whose code isn't
    /// longer than codes may be; else `None`.
    #[tactic(auto, using(crate::proofs::Sieves::sieves_of_clauses))]
    pub fn of(spec: &'a Spec) -> Option<Sieve<'a>>
        ensures stops { IfSome result (λ sieve. IsSieveOf spec.entry.now sieve) }
        ensures found { IsFound (compared_first spec.entry.now) result }
    {
        let (clause, others) = spec.clauses.as_slice().split_first()?;
        if others.is_empty() {
            sieve_of_clause(clause)
        } else {
            None
        }
    }

    /// Whether the object of this code passes. Nothing behind the element is looked at.
    #[inline(always)]
    #[tactic(auto, using(crate::proofs::Sieves::too_few, crate::proofs::Sieves::no_elements, crate::proofs::CodeBinding::some_left))]
    pub fn passes(self, code: &[u8]) -> bool
        requires { IsTermCode code.now }
        ensures { (object : Tree) → IsTerm object → code.now ≡ code_of object → result ≡ passes self.entry object }
    {
        let Some((count, inside)) = Codes::of(Part::of(code)).open_tuple() else {
            return false;
        };
        if count <= self.place {
            return false;
        }
        let mut left = inside;
        for _ in 0..self.place {
            left = left.split().1;
        }
        has(self.orders, left.order(self.constant))
    }
}

// The sieve of a clause.
#[tactic(auto, using(crate::proofs::Sieves::no_sieves))]
fn sieve_of_clause<'a>(clause: &'a Clause) -> Option<Sieve<'a>>
    ensures stops { IfSome result (λ sieve. (object : Tree) → passes sieve object ≡ false → clause_result (tree_of_clause clause.entry.now) object ≡ None) }
    ensures found { IsFound (compared_by (tree_of_clause clause.entry.now)) result }
{
    let parts = parts_of(&clause.head)?;
    let (guard, _) = clause.guards.as_slice().split_first()?;
    let (number, orders, constant) = comparison(guard)?;
    let place = place_of(parts, number)?;
    Some(Sieve {
        place,
        orders,
        constant,
    })
}

// The parts of a head that is a tuple.
fn parts_of(head: &Pattern) -> Option<&[Pattern]>
    ensures parts { IfSome result (λ parts. Tuple (row_of parts.now) ≡ head.now) }
    ensures found { is_some result ≡ is_tuple head.now }
{
    match &head.shape {
        Shape::Tuple(parts) => Some(parts.as_slice()),
        Shape::Anything | Shape::Variable(_) | Shape::Equal(_) | Shape::List(_, _) => None,
    }
}

// The first place of a variable among the parts of a head.
#[tactic(auto, using(crate::proofs::Sieves::places_in_order))]
fn place_of(parts: &[Pattern], number: u8) -> Option<usize>
    ensures stands { IfSome result (λ place. StandsAt parts.now number place) }
    ensures found { result ≡ first_place number parts.now }
{
    let mut place = 0;
    for part in parts {
        if is_variable(part, number) {
            return Some(place);
        }
        place += 1;
    }
    None
}

// Whether a part of a head is this variable.
fn is_variable(part: &Pattern, number: u8) -> bool
    ensures named { result ≡ true → part.now ≡ Atom (variable_name number) }
    ensures found { result ≡ is_variable number (variable_in part.now) }
{
    match &part.shape {
        Shape::Variable(own) => *own == number,
        Shape::Anything | Shape::Equal(_) | Shape::Tuple(_) | Shape::List(_, _) => false,
    }
}

// The variable of a guard that compares one with a constant, the orders in which the guard is true, and the constant's code.
fn comparison<'a>(guard: &'a Expression) -> Option<(u8, Orders, Part<'a>)>
    ensures compares { IfSome result (λ c. IsGuardOf guard.entry.now c.0 c.1 (tree_of c.2)) }
    ensures found { option_map (λ c. c.0) result ≡ compared guard.entry.now }
{
    let Form::Two(operator, a, b) = &guard.form else {
        return None;
    };
    let orders = orders_of(*operator)?;
    if let Some(number) = variable(a) {
        let code = constant(b)?;
        return Some((number, orders, code));
    }
    let number = variable(b)?;
    let code = constant(a)?;
    Some((number, turned(orders), code))
}

// The variable that an expression is.
fn variable(expression: &Expression) -> Option<u8>
    ensures named { IfSome result (λ number. (number < 100) × (Atom (variable_name number) ≡ expression.now)) }
    ensures found { result ≡ variable_in expression.now }
{
    match &expression.form {
        Form::Variable(number) => Some(*number),
        _ => None,
    }
}

// The code of the constant that an expression is.
fn constant<'a>(expression: &'a Expression) -> Option<Part<'a>>
    ensures means { IfSome result (λ part. (scene : Scene) → value scene expression.entry.now ≡ Some (tree_of part)) }
    ensures found { is_some result ≡ is_constant expression.entry.now }
{
    match &expression.form {
        Form::Literal(constant) => constant.part(),
        Form::Constant(constant) => constant.part(),
        _ => None,
    }
}

// The orders with the sides changed.
fn turned(orders: Orders) -> Orders
    ensures { (o : Ordering) → has result o ≡ has orders (ordering_reverse o) }
{
    Orders {
        less: orders.greater,
        equal: orders.equal,
        greater: orders.less,
    }
}

// In which orders a comparison is true, or `None` for other operators.
fn orders_of(operator: Operator) -> Option<Orders>
    ensures compares { IfSome result (λ orders. Compares operator orders) }
    ensures found { is_some result ≡ is_comparison (name_of operator) }
{
    Some(Orders {
        less: is_so_at(operator, Ordering::Less)?,
        equal: is_so_at(operator, Ordering::Equal)?,
        greater: is_so_at(operator, Ordering::Greater)?,
    })
}

// Whether a comparison is true of two terms of this order, or `None` for other operators.
fn is_so_at(operator: Operator, order: Ordering) -> Option<bool>
    ensures so { IfSome result (λ so. IsSoAt operator order so) }
    ensures found { is_some result ≡ is_comparison (name_of operator) }
{
    match operator {
        Operator::Greater => Some(order.is_gt()),
        Operator::GreaterOrEqual => Some(order.is_ge()),
        Operator::Less => Some(order.is_lt()),
        Operator::LessOrEqual => Some(order.is_le()),
        Operator::Equal => Some(order.is_eq()),
        Operator::ExactlyEqual => Some(order.is_eq()),
        Operator::Unequal => Some(order.is_ne()),
        Operator::ExactlyUnequal => Some(order.is_ne()),
        _ => None,
    }
}
