//! Values of guards' and bodies' expressions.
ghost use Rattle.std.specs.Prelude.{◌≡◌, IfOk, ◌||◌, true, option_and_then, option_map};
ghost use Rattle.ca_term.specs.Kind.{tree_of_kind};
ghost use Rattle.ca_term.specs.Order.{rank, term_cmp};
ghost use Rattle.ca_term.specs.Updates.{integer_of};
ghost use Rattle.ca_match.specs.Operators.{truth, truth_in, truth_of};
ghost use Rattle.ca_match.specs.ValueView.{is_plain, tree_of_value, truth_name};

use ca_term::{Kind, Term, atom, int, term_order, try_copy};
use std::alloc::{AllocError, Global};
use std::cmp::Ordering;

/// The value of an expression. What is lent stands in the object or in the specification; integers and truth values take no memory.
#[derive(Drop)]
pub enum Value<'a> {
    Lent(&'a Term),
    Owned(Term),
    Integer(i64),
    Truth(bool),
}

impl<'a> Value<'a> {
    /// The kind of the value's term, with its parts.
    pub fn kind(&self) -> Kind<'_>
        ensures { tree_of_kind result ≡ tree_of_value self.now }
    {
        match self {
            Value::Lent(term) => term.kind(),
            Value::Owned(term) => term.kind(),
            Value::Integer(value) => Kind::Int(*value),
            Value::Truth(truth) => Kind::Atom(name_of_truth(*truth)),
        }
    }

    /// The integer that the value is.
    pub fn integer(&self) -> Option<i64>
        ensures { result ≡ integer_of (tree_of_value self.now) }
    {
        match self.kind() {
            Kind::Int(value) => Some(value),
            Kind::Atom(_) | Kind::Tuple(_) | Kind::Nil | Kind::Cons(_, _) | Kind::Bin(_) => None,
        }
    }

    /// The truth value that the value is.
    pub fn truth(&self) -> Option<bool>
        ensures { result ≡ truth_of (tree_of_value self.now) }
    {
        match self.kind() {
            Kind::Atom(text) => truth_of_name(text),
            Kind::Int(_) | Kind::Tuple(_) | Kind::Nil | Kind::Cons(_, _) | Kind::Bin(_) => None,
        }
    }

    /// The value as a term: a copy where it is lent. A truth value's atom takes memory.
    pub fn into_term(self, alloc: Global) -> Result<Term, AllocError>
        ensures { IfOk result (λ t. t ≡ tree_of_value self.entry) }
    {
        let term = match self {
            Value::Lent(term) => try_copy(alloc, term),
            Value::Owned(term) => Ok(term),
            Value::Integer(value) => Ok(int(value)),
            Value::Truth(truth) => atom(alloc, name_of_truth(truth)),
        };
        match term {
            Ok(term) => Ok(term),
            Err(_) => Err(AllocError),
        }
    }
}

/// The truth value that a value is, where there is one.
pub fn truth(value: &Option<Value<'_>>) -> Option<bool>
    ensures { result ≡ option_and_then truth_of (option_map tree_of_value value.now) }
{
    match value {
        Some(value) => value.truth(),
        None => None,
    }
}

/// A truth value as a value.
pub fn truth_value<'a>(known: Option<bool>) -> Option<Value<'a>>
    ensures { option_map tree_of_value result ≡ option_map truth known }
{
    match known {
        Some(known) => Some(Value::Truth(known)),
        None => None,
    }
}

/// How two values stand to one another in the term order.
pub fn value_order(a: &Value<'_>, b: &Value<'_>) -> Ordering
    ensures { result ≡ term_cmp (tree_of_value a.now) (tree_of_value b.now) }
{
    match (a, b) {
        (Value::Lent(s), Value::Lent(t)) => term_order(s, t),
        (Value::Lent(s), Value::Owned(t)) => term_order(s, t),
        (Value::Owned(s), Value::Lent(t)) => term_order(s, t),
        (Value::Owned(s), Value::Owned(t)) => term_order(s, t),
        (Value::Integer(_) | Value::Truth(_), _) | (_, Value::Integer(_) | Value::Truth(_)) => {
            plain_order(a.kind(), b.kind())
        }
    }
}

// The order of two terms of which one is an integer or an atom.
fn plain_order(a: Kind<'_>, b: Kind<'_>) -> Ordering
    requires { (is_plain (tree_of_kind a) || is_plain (tree_of_kind b)) ≡ true }
    ensures { result ≡ term_cmp (tree_of_kind a.entry) (tree_of_kind b.entry) }
{
    match (a, b) {
        (Kind::Int(m), Kind::Int(n)) => m.cmp(&n),
        (Kind::Atom(s), Kind::Atom(t)) => s.cmp(t),
        (a, b) => rank(a).cmp(&rank(b)),
    }
}

// The place of a kind in the order of kinds.
fn rank(kind: Kind<'_>) -> u8
    ensures { result ≡ rank (tree_of_kind kind.entry) }
{
    match kind {
        Kind::Int(_) => 0,
        Kind::Atom(_) => 1,
        Kind::Tuple(_) => 2,
        Kind::Nil => 3,
        Kind::Cons(_, _) => 4,
        Kind::Bin(_) => 5,
    }
}

fn name_of_truth(truth: bool) -> &'static str
    ensures { result.now ≡ truth_name truth }
{
    if truth { "true" } else { "false" }
}

fn truth_of_name(text: &str) -> Option<bool>
    ensures { result ≡ truth_in text.now }
{
    if text == "true" {
        Some(true)
    } else if text == "false" {
        Some(false)
    } else {
        None
    }
}
