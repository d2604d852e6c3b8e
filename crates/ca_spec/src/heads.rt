//! Heads, compiled.
ghost use Rattle.std.specs.Prelude.{◌≡◌, ◌<◌, true, length, OnOk, IfOk, IfErr};
ghost use Rattle.ca_term.specs.Tree.{Atom, Cons, Tuple, list_of, row_of};
ghost use Rattle.ca_match.specs.Specification.{head_fault};
ghost use Rattle.ca_spec.specs.Faults.{IsStop};
ghost use Rattle.ca_spec.specs.Held.{with_variables, with_row};
ghost use Rattle.ca_spec.specs.PatternView.{fits_equal};

use crate::constant::Constant;
use crate::fault::{SpecWhy, Stop};
use crate::held::Variables;
use crate::pattern::{Pattern, Shape};
use ca_match::variable_number;
use ca_term::{Kind, Term};
use std::alloc::Global;

// A head, and the variables that it holds, which are added to those.
pub(crate) fn head(alloc: Global, term: &Term, variables: &mut Variables) -> Result<Pattern, Stop>
    ensures ok { IfOk result (λ pattern. pattern ≡ term.now) }
    ensures well { OnOk result (head_fault term.now ≡ None) }
    ensures variables { OnOk result (variables.new ≡ with_variables term.now variables.old) }
    ensures stop { IfErr result (λ stop. IsStop (head_fault term.now) stop) }
{
    match term.kind() {
        Kind::Atom(text) if text != "_" && variable_number(text).is_none() => {
            Err(Stop::Fault(SpecWhy::BadHead))
        }
        Kind::Atom(_) | Kind::Tuple(_) => part(alloc, term, variables),
        Kind::Int(_) | Kind::Nil | Kind::Cons(_, _) | Kind::Bin(_) => {
            Err(Stop::Fault(SpecWhy::BadHead))
        }
    }
}

// A part of a head.
#[cycle(part)]
fn part(alloc: Global, term: &Term, variables: &mut Variables) -> Result<Pattern, Stop>
    ensures ok { IfOk result (λ pattern. pattern ≡ term.now) }
    ensures variables { OnOk result (variables.new ≡ with_variables term.now variables.old) }
    ensures err { IfErr result (λ stop. stop ≡ Stop.NoMemory) }
{
    match term.kind() {
        Kind::Atom(text) => name(alloc, term, text, variables),
        Kind::Tuple(items) => Ok(Pattern {
            shape: Shape::Tuple(parts(alloc, items, variables)?),
        }),
        Kind::Cons(first, behind) => cells(alloc, first, behind, variables),
        Kind::Int(_) | Kind::Nil | Kind::Bin(_) => equal(alloc, term),
    }
}

// An atom.
fn name(alloc: Global, term: &Term, text: &str, variables: &mut Variables) -> Result<Pattern, Stop>
    requires { term.now ≡ Atom text.now }
    ensures ok { IfOk result (λ pattern. pattern ≡ term.now) }
    ensures variables { OnOk result (variables.new ≡ with_variables term.now variables.old) }
    ensures err { IfErr result (λ stop. stop ≡ Stop.NoMemory) }
{
    if text == "_" {
        return Ok(Pattern {
            shape: Shape::Anything,
        });
    }
    match variable_number(text) {
        Some(number) => {
            variables.add(number);
            Ok(Pattern {
                shape: Shape::Variable(number),
            })
        }
        None => equal(alloc, term),
    }
}

// A part that fits an equal term alone.
fn equal(alloc: Global, term: &Term) -> Result<Pattern, Stop>
    requires { fits_equal term.now ≡ true }
    ensures ok { IfOk result (λ pattern. pattern ≡ term.now) }
    ensures err { IfErr result (λ stop. stop ≡ Stop.NoMemory) }
{
    Ok(Pattern {
        shape: Shape::Equal(Constant::of(alloc, term)?),
    })
}

// Parts, in order.
#[cycle(part)]
#[tactic(auto, using(ca_term::proofs::Rows::nodes_item))]
fn parts(alloc: Global, items: &[Term], variables: &mut Variables) -> Result<Vec<Pattern>, Stop>
    ensures ok { IfOk result (λ patterns. patterns.items ≡ items.now) }
    ensures variables { OnOk result (variables.new ≡ with_row (row_of items.now) variables.old) }
    ensures err { IfErr result (λ stop. stop ≡ Stop.NoMemory) }
{
    let mut patterns = Vec::with_capacity(alloc, items.len())?;
    for item in items {
        patterns.push(part(alloc, item, variables)?)?;
    }
    Ok(patterns)
}

// A list by its first head and what stands behind it. It goes along the tail in a loop: a list may be longer than the stack is deep.
#[cycle(part)]
#[tactic(auto, using(ca_term::proofs::Lists::list_push))]
fn cells(
    alloc: Global,
    first: &Term,
    behind: &Term,
    variables: &mut Variables,
) -> Result<Pattern, Stop>
    ensures ok { IfOk result (λ pattern. pattern ≡ Cons first.now behind.now) }
    ensures variables { OnOk result (variables.new ≡ with_variables (Cons first.now behind.now) variables.old) }
    ensures err { IfErr result (λ stop. stop ≡ Stop.NoMemory) }
{
    let mut heads = Vec::new(alloc);
    heads.push(part(alloc, first, variables)?)?;
    let mut rest = behind;
    while let Kind::Cons(head, tail) = rest.kind() {
        heads.push(part(alloc, head, variables)?)?;
        rest = tail;
    }
    let tail = part(alloc, rest, variables)?;
    list_with(alloc, heads, tail)
}

// The list of these heads with this tail.
fn list_with(alloc: Global, heads: Vec<Pattern>, tail: Pattern) -> Result<Pattern, Stop>
    requires { 0 < length heads.items }
    ensures ok { IfOk result (λ pattern. pattern ≡ list_of heads.items tail) }
    ensures err { IfErr result (λ stop. stop ≡ Stop.NoMemory) }
{
    Ok(Pattern {
        shape: Shape::List(heads, Box::new(alloc, tail)?),
    })
}
