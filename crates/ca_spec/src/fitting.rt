//! Heads against objects' codes, of which nothing is decoded.
ghost use Rattle.std.specs.Prelude.{◌≡◌, ◌≤◌, ◌<◌, None, Some, IfSome, IsSome, true, length, take, drop, if◌then◌else◌};
ghost use Rattle.ca_term.specs.Object.{fits};
ghost use Rattle.ca_term.specs.Tree.{Tuple, list_of, row_of};
ghost use Rattle.ca_match.specs.Match.{bind, bind_row, bind_variable, bound, where_equal, Bindings};
ghost use Rattle.ca_order.specs.CodesView.{terms_of, tree_of};
ghost use Rattle.ca_spec.specs.PartBound.{AreAsked, IsAsked, first, others, parts_of};
ghost use Rattle.ca_spec.specs.Places.{places, row_places};
ghost use Rattle.ca_spec.specs.Reached.{AreShort, IsShortRow};

use crate::constant::Constant;
use crate::pattern::{Pattern, Shape};
use ca_order::{Codes, Part};

// How many parts of a head are asked for.
pub(crate) fn asked_parts(head: &Pattern) -> usize
    ensures { AreAsked head.now result }
{
    match &head.shape {
        Shape::Tuple(parts) => asked(parts.as_slice()).len(),
        Shape::List(_, _) => 0,
        Shape::Anything | Shape::Variable(_) | Shape::Equal(_) => 0,
    }
}

// Whether a head, of which so many parts are asked for, fits an object; then its variables are bound in the table. The other parts are not looked at.
#[tactic(auto, using(crate::proofs::CodeBinding::object_fits))]
#[inline(always)]
pub(crate) fn fit_object<'a>(
    head: &Pattern,
    asked: usize,
    object: Part<'a>,
    table: &mut [Option<Part<'a>>],
) -> Option<bool>
    requires front { AreAsked head.now asked }
    requires room { places head.now ≤ length table.old }
    ensures told { IfSome result (λ fits.
        bind head.now (tree_of object.entry) (parts_of table.old) ≡ (if fits then Some (parts_of table.new) else None)) }
    ensures known { AreShort head.now → IsSome result }
{
    let mut codes = Codes::of(object);
    let Shape::Tuple(parts) = &head.shape else {
        return fit_other(head, &mut codes, table);
    };
    let Some((count, inside)) = codes.open_tuple() else {
        return Some(false);
    };
    if parts.len() != count {
        return Some(false);
    }
    codes = inside;
    let front = first_parts(parts.as_slice(), asked);
    fit_all(front, front.len(), &mut codes, table)
}

// The first so many parts, those that are asked for.
#[inline(always)]
fn first_parts(parts: &[Pattern], asked: usize) -> &[Pattern]
    requires { (asked ≤ length parts.now) × IsAsked parts.now (take asked parts.now) }
    ensures { IsAsked parts.now result.now }
{
    &parts[..asked]
}

// A head that is no tuple. It stands apart, since it fits few objects.
#[inline(never)]
fn fit_other<'a>(
    pattern: &Pattern,
    codes: &mut Codes<'a>,
    table: &mut [Option<Part<'a>>],
) -> Option<bool>
    requires some { 1 ≤ length (terms_of codes.old) }
    requires room { places pattern.now ≤ length table.old }
    ensures told { IfSome result (λ fits.
        bind pattern.now (first (terms_of codes.old)) (parts_of table.old) ≡ (if fits then Some (parts_of table.new) else None)) }
    ensures known { AreShort pattern.now → IsSome result }
    ensures rest { result ≡ Some true → terms_of codes.new ≡ others (terms_of codes.old) }
{
    fit(pattern, codes, table)
}

// The parts up to the last one that isn't '_'.
#[tactic(auto, using(crate::proofs::CodeBinding::asked_parts))]
fn asked(parts: &[Pattern]) -> &[Pattern]
    ensures { IsAsked parts.now result.now }
{
    let mut front = parts;
    while let Some((last, others)) = front.split_last() {
        let Shape::Anything = &last.shape else {
            return front;
        };
        front = others;
    }
    front
}

// Whether a part of a head fits the first of these codes under the bindings so far; then its variables are bound in the table, and the codes are
// those behind it. `None` where that isn't told: of constants without a code.
#[cycle(fit)]
#[inline(always)]
#[tactic(auto, using(crate::proofs::CodeBinding::part_fits))]
fn fit<'a>(pattern: &Pattern, codes: &mut Codes<'a>, table: &mut [Option<Part<'a>>]) -> Option<bool>
    requires some { 1 ≤ length (terms_of codes.old) }
    requires room { places pattern.now ≤ length table.old }
    ensures told { IfSome result (λ fits.
        bind pattern.now (first (terms_of codes.old)) (parts_of table.old) ≡ (if fits then Some (parts_of table.new) else None)) }
    ensures known { AreShort pattern.now → IsSome result }
    ensures rest { result ≡ Some true → terms_of codes.new ≡ others (terms_of codes.old) }
{
    match &pattern.shape {
        Shape::Anything => {
            *codes = codes.split().1;
            Some(true)
        }
        Shape::Variable(number) => Some(fit_variable(*number as usize, codes, table)),
        Shape::Equal(own) => fit_equal(own, codes),
        // What is handed to a call lies in memory, so that is a copy.
        Shape::Tuple(parts) => {
            let mut left = *codes;
            let told = fit_tuple(parts.as_slice(), &mut left, table);
            *codes = left;
            told
        }
        Shape::List(heads, tail) => {
            let mut left = *codes;
            let told = fit_cells(heads.as_slice(), tail, &mut left, table);
            *codes = left;
            told
        }
    }
}

// A tuple of these parts inside a head.
#[cycle(fit)]
#[inline(never)]
#[tactic(auto, using(crate::proofs::CodeBinding::part_fits))]
fn fit_tuple<'a>(
    parts: &[Pattern],
    codes: &mut Codes<'a>,
    table: &mut [Option<Part<'a>>],
) -> Option<bool>
    requires some { 1 ≤ length (terms_of codes.old) }
    requires room { row_places (row_of parts.now) ≤ length table.old }
    ensures told { IfSome result (λ fits.
        bind (Tuple (row_of parts.now)) (first (terms_of codes.old)) (parts_of table.old) ≡ (if fits then Some (parts_of table.new) else None)) }
    ensures known { IsShortRow (row_of parts.now) → IsSome result }
    ensures rest { result ≡ Some true → terms_of codes.new ≡ others (terms_of codes.old) }
{
    match codes.open_tuple() {
        Some((count, inside)) => {
            *codes = inside;
            fit_all(parts, count, codes, table)
        }
        None => Some(false),
    }
}

// A variable is bound at its first place, and meets the same code at a later one.
#[tactic(auto, using(crate::proofs::PartTables::variable_new, crate::proofs::PartTables::variable_old))]
#[inline(always)]
fn fit_variable<'a>(number: usize, codes: &mut Codes<'a>, table: &mut [Option<Part<'a>>]) -> bool
    requires some { 1 ≤ length (terms_of codes.old) }
    requires room { number < length table.old }
    ensures told { bind_variable (parts_of table.old) number (bound (parts_of table.old) number) (first (terms_of codes.old))
        ≡ (if result then Some (parts_of table.new) else None) }
    ensures rest { terms_of codes.new ≡ others (terms_of codes.old) }
{
    let (part, rest) = codes.split();
    *codes = rest;
    match table[number] {
        Some(own) => own.same(part),
        None => {
            table[number] = Some(part);
            true
        }
    }
}

// A constant fits its own code.
#[inline(always)]
fn fit_equal(constant: &Constant, codes: &mut Codes<'_>) -> Option<bool>
    requires { 1 ≤ length (terms_of codes.old) }
    ensures told { (b : Bindings) → IfSome result (λ fits. where_equal b constant.now (first (terms_of codes.old)) ≡ (if fits then Some b else None)) }
    ensures known { fits constant.now ≡ true → IsSome result }
    ensures rest { result ≡ Some true → terms_of codes.new ≡ others (terms_of codes.old) }
{
    let Some(own) = constant.part() else {
        return None;
    };
    match codes.behind(own) {
        Some(rest) => {
            *codes = rest;
            Some(true)
        }
        None => Some(false),
    }
}

// Elements against so many codes, from the left.
#[cycle(fit)]
#[inline(always)]
#[tactic(auto, using(crate::proofs::CodeBinding::rows_fit))]
fn fit_all<'a>(
    parts: &[Pattern],
    count: usize,
    codes: &mut Codes<'a>,
    table: &mut [Option<Part<'a>>],
) -> Option<bool>
    requires some { count ≤ length (terms_of codes.old) }
    requires room { row_places (row_of parts.now) ≤ length table.old }
    ensures told { IfSome result (λ fits.
        bind_row (row_of parts.now) (row_of (take count (terms_of codes.old))) (parts_of table.old) ≡ (if fits then Some (parts_of table.new) else None)) }
    ensures known { IsShortRow (row_of parts.now) → IsSome result }
    ensures rest { result ≡ Some true → terms_of codes.new ≡ drop count (terms_of codes.old) }
{
    if parts.len() != count {
        return Some(false);
    }
    let mut rest = *codes;
    for part in parts {
        match fit(part, &mut rest, table) {
            Some(true) => {}
            told => return told,
        }
    }
    *codes = rest;
    Some(true)
}

// List cells, head by head, and what stands behind the last cell. It goes along the tail in a loop: a list may be longer than the stack is deep.
#[cycle(fit)]
#[inline(never)]
#[tactic(auto, using(crate::proofs::CodeBinding::cells_fit))]
fn fit_cells<'a>(
    heads: &[Pattern],
    tail: &Pattern,
    codes: &mut Codes<'a>,
    table: &mut [Option<Part<'a>>],
) -> Option<bool>
    requires some { 0 < length heads.now }
    requires there { 1 ≤ length (terms_of codes.old) }
    requires room { places (list_of heads.now tail.now) ≤ length table.old }
    ensures told { IfSome result (λ fits.
        bind (list_of heads.now tail.now) (first (terms_of codes.old)) (parts_of table.old) ≡ (if fits then Some (parts_of table.new) else None)) }
    ensures known { AreShort (list_of heads.now tail.now) → IsSome result }
    ensures rest { result ≡ Some true → terms_of codes.new ≡ others (terms_of codes.old) }
{
    for head in heads {
        let Some(inside) = codes.open_cell() else {
            return Some(false);
        };
        *codes = inside;
        match fit(head, codes, table) {
            Some(true) => {}
            told => return told,
        }
    }
    fit(tail, codes, table)
}
