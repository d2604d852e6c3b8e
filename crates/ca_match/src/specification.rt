//! Which terms are match specifications, as the definition says it.
ghost use Rattle.std.specs.Prelude.{◌≡◌, ◌<◌, ◌&&◌, is_none, length};
ghost use Rattle.std.specs.Option.{option_or};
ghost use Rattle.ca_term.specs.Tree.{Atom, Cons, Tuple, row_of, size};
ghost use Rattle.ca_match.specs.SpecificationView.{call_fault_of, part_of};
ghost use Rattle.ca_match.specs.Specification.{atom_fault, body_fault, call_fault, clause_fault, each_fault, fault, faults, first_fault, form_fault, guards_fault, head_fault, holds, is_call, is_proper, row_holds, tuple_fault};

use crate::operator::Operator;
use crate::variable::variable_number;
use ca_term::{Kind, Term};

// Where an expression stands.
#[derive(Clone, Copy)]
enum Part {
    Guard,
    Body,
}

/// Whether a term is a match specification: a proper list of clauses `{Head,Guards,Body}`.
/// Source: the section "Match Specification Grammar" of the ERTS guide "Match Specifications in Erlang".
#[tactic(auto, using(crate::proofs::Specifications::clause_by_clause), unfolding(crate::specs::Specification::clauses_fault))]
pub fn is_specification(term: &Term) -> bool
    ensures { result ≡ is_none (first_fault term.now) }
{
    if !is_proper(term) {
        return false;
    }
    let mut rest = term;
    while let Kind::Cons(clause, clauses) = rest.kind() {
        if !is_clause(clause) {
            return false;
        }
        rest = clauses;
    }
    true
}

// Whether a term is a list that ends with the empty list.
fn is_proper(term: &Term) -> bool
    ensures { result ≡ is_proper term.now }
{
    let mut rest = term;
    while let Kind::Cons(_, tail) = rest.kind() {
        rest = tail;
    }
    matches!(rest.kind(), Kind::Nil)
}

// Whether a term is a clause {Head,Guards,Body}.
#[tactic(auto, using(crate::proofs::Specifications::too_short, crate::proofs::Specifications::too_long))]
fn is_clause(term: &Term) -> bool
    ensures { result ≡ is_none (clause_fault term.now) }
{
    let Kind::Tuple(items) = term.kind() else {
        return false;
    };
    match items {
        [head, guards, body] => are_parts(head, guards, body),
        [] | [_] | [_, _] => false,
        [_, _, _, _, ..] => false,
    }
}

// Whether these are the parts of a clause.
fn are_parts(head: &Term, guards: &Term, body: &Term) -> bool
    ensures { result ≡ is_none (option_or (head_fault head.now) (option_or (guards_fault head.now guards.now) (body_fault head.now body.now))) }
{
    is_head(head) && are_guards(head, guards) && is_body(head, body)
}

// Whether a term is a head: a tuple, a variable or '_'.
fn is_head(term: &Term) -> bool
    ensures { result ≡ is_none (head_fault term.now) }
{
    match term.kind() {
        Kind::Atom(text) => text == "_" || variable_number(text).is_some(),
        Kind::Tuple(_) => true,
        Kind::Int(_) | Kind::Nil | Kind::Cons(_, _) | Kind::Bin(_) => false,
    }
}

// Whether a term is a proper list of guards, beside this head.
#[tactic(auto, unfolding(crate::specs::Specification::each_fault))]
fn are_guards(head: &Term, list: &Term) -> bool
    ensures { result ≡ is_none (guards_fault head.now list.now) }
{
    if !is_proper(list) {
        return false;
    }
    let mut rest = list;
    while let Kind::Cons(guard, guards) = rest.kind() {
        if !is_expression(head, Part::Guard, guard) {
            return false;
        }
        rest = guards;
    }
    true
}

// Whether a term is a list of one expression without operators, beside this head.
fn is_body(head: &Term, list: &Term) -> bool
    ensures { result ≡ is_none (body_fault head.now list.now) }
{
    let Kind::Cons(only, behind) = list.kind() else {
        return false;
    };
    matches!(behind.kind(), Kind::Nil) && is_expression(head, Part::Body, only)
}

// Whether a term is an expression. It goes along the tail in a loop: a list may be longer than the stack is deep.
#[cycle(expression)]
#[tactic(auto, unfolding(crate::specs::Specification::fault))]
fn is_expression(head: &Term, part: Part, term: &Term) -> bool
    ensures { result ≡ is_none (fault head.now (part_of part) term.now) }
{
    let mut rest = term;
    while let Kind::Cons(first, behind) = rest.kind() {
        if !is_expression(head, part, first) {
            return false;
        }
        rest = behind;
    }
    match rest.kind() {
        Kind::Atom(text) => is_name(head, text),
        Kind::Tuple(items) => is_form(head, part, items),
        Kind::Int(_) | Kind::Nil | Kind::Bin(_) => true,
        Kind::Cons(_, _) => unreachable!(),
    }
}

// Whether an atom is an expression: if it is a variable, the head must hold it.
fn is_name(head: &Term, text: &str) -> bool
    ensures { result ≡ is_none (atom_fault head.now text.now) }
{
    if text == "$_" || text == "$$" {
        return true;
    }
    match variable_number(text) {
        Some(number) => holds(head, number),
        None => true,
    }
}

// Whether a tuple is an expression: one that makes a tuple, a constant, or an operator with its arguments.
#[cycle(expression)]
#[tactic(auto, unfolding(crate::specs::Specification::form_fault))]
fn is_form(head: &Term, part: Part, items: &[Term]) -> bool
    ensures { result ≡ is_none (form_fault head.now (part_of part) (row_of items.now)) }
{
    match items {
        [] => false,
        [only] => is_inner_tuple(head, part, only),
        [name, arguments @ ..] => is_call(head, part, name, arguments),
    }
}

// Whether {{E1,..,En}} is an expression, by its one element.
#[cycle(expression)]
#[tactic(auto, unfolding(crate::specs::Specification::tuple_fault))]
fn is_inner_tuple(head: &Term, part: Part, only: &Term) -> bool
    ensures { result ≡ is_none (tuple_fault head.now (part_of part) only.now) }
{
    match only.kind() {
        Kind::Tuple(items) => are_expressions(head, part, items),
        Kind::Int(_) | Kind::Atom(_) | Kind::Nil | Kind::Cons(_, _) | Kind::Bin(_) => false,
    }
}

// Whether all these terms are expressions.
#[cycle(expression)]
#[tactic(auto, using(ca_term::proofs::Rows::nodes_item), unfolding(crate::specs::Specification::faults))]
fn are_expressions(head: &Term, part: Part, items: &[Term]) -> bool
    ensures { result ≡ is_none (faults head.now (part_of part) (row_of items.now)) }
{
    for item in items {
        if !is_expression(head, part, item) {
            return false;
        }
    }
    true
}

// Whether {const,T} or {Op,E1,..,En} is an expression, by its name and its arguments.
#[cycle(expression)]
#[tactic(auto, using(ca_term::proofs::Rows::size_row))]
fn is_call(head: &Term, part: Part, name: &Term, arguments: &[Term]) -> bool
    ensures { result ≡ is_none (call_fault_of head.now (part_of part) name.now (row_of arguments.now)) }
{
    match name.kind() {
        Kind::Atom(text) if text == "const" => arguments.len() == 1,
        Kind::Atom(text) => {
            has_count(part, text, arguments.len()) && are_expressions(head, part, arguments)
        }
        Kind::Int(_) | Kind::Tuple(_) | Kind::Nil | Kind::Cons(_, _) | Kind::Bin(_) => false,
    }
}

// Whether an operator of this name, with so many arguments, may stand in this part: operators stand in guards alone.
fn has_count(part: Part, text: &str, count: usize) -> bool
    ensures { result ≡ is_call (part_of part) text.now count }
{
    match (part, Operator::of(text)) {
        (Part::Guard, Some(operator)) => operator.count() == count,
        _ => false,
    }
}

// Whether a head holds a variable. It goes along the tail in a loop: a list may be longer than the stack is deep.
#[cycle(holds)]
#[tactic(auto, unfolding(crate::specs::Specification::holds))]
fn holds(head: &Term, number: u8) -> bool
    ensures { result ≡ holds number head.now }
{
    let mut rest = head;
    while let Kind::Cons(first, behind) = rest.kind() {
        if holds(first, number) {
            return true;
        }
        rest = behind;
    }
    match rest.kind() {
        Kind::Atom(text) => variable_number(text) == Some(number),
        Kind::Tuple(items) => any_holds(items, number),
        Kind::Int(_) | Kind::Nil | Kind::Bin(_) => false,
        Kind::Cons(_, _) => unreachable!(),
    }
}

// Whether one of these terms holds a variable.
#[cycle(holds)]
#[tactic(auto, using(ca_term::proofs::Rows::nodes_item), unfolding(crate::specs::Specification::row_holds))]
fn any_holds(items: &[Term], number: u8) -> bool
    ensures { result ≡ row_holds number (row_of items.now) }
{
    for item in items {
        if holds(item, number) {
            return true;
        }
    }
    false
}
