//! Heads against objects.
ghost use Rattle.std.specs.Prelude.{◌≡◌, ◌≤◌, ◌<◌, None, Some, length, if◌then◌else◌};
ghost use Rattle.ca_term.specs.Tree.{list_of, row_of};
ghost use Rattle.ca_match.specs.Match.{bind, bind_row, bind_variable, bound};
ghost use Rattle.ca_spec.specs.Bound.{table_of};
ghost use Rattle.ca_spec.specs.Places.{places, row_places};

use crate::pattern::{Pattern, Shape};
use ca_match::{cell_parts, tuple_items};
use ca_term::{Term, term_order};

// Whether a part of a head fits a term under the bindings so far; then its variables are bound in the table.
#[cycle(bind)]
#[tactic(auto, using(crate::proofs::Binding::part_fits))]
pub(crate) fn bind<'a>(pattern: &Pattern, term: &'a Term, table: &mut [Option<&'a Term>]) -> bool
    requires { places pattern.now ≤ length table.old }
    ensures { bind pattern.now term.now (table_of table.old) ≡ (if result then Some (table_of table.new) else None) }
{
    match &pattern.shape {
        Shape::Anything => true,
        Shape::Variable(number) => bind_variable(*number as usize, term, table),
        Shape::Equal(own) => term_order(own.term(), term).is_eq(),
        Shape::Tuple(parts) => match tuple_items(term) {
            Some(items) => bind_all(parts.as_slice(), items, table),
            None => false,
        },
        Shape::List(heads, tail) => bind_cells(heads.as_slice(), tail, term, table),
    }
}

// A variable is bound at its first place, and meets an equal term at a later one.
#[tactic(auto, using(crate::proofs::Tables::variable_new, crate::proofs::Tables::variable_old))]
fn bind_variable<'a>(number: usize, term: &'a Term, table: &mut [Option<&'a Term>]) -> bool
    requires { number < length table.old }
    ensures { bind_variable (table_of table.old) number (bound (table_of table.old) number) term.now ≡ (if result then Some (table_of table.new) else None) }
{
    match table[number] {
        Some(own) => term_order(own, term).is_eq(),
        None => {
            table[number] = Some(term);
            true
        }
    }
}

// Elements against elements, from the left.
#[cycle(bind)]
#[tactic(auto, using(crate::proofs::Binding::rows_fit))]
fn bind_all<'a>(parts: &[Pattern], items: &'a [Term], table: &mut [Option<&'a Term>]) -> bool
    requires { row_places (row_of parts.now) ≤ length table.old }
    ensures { bind_row (row_of parts.now) (row_of items.now) (table_of table.old) ≡ (if result then Some (table_of table.new) else None) }
{
    if parts.len() != items.len() {
        return false;
    }
    for i in 0..parts.len() {
        if !bind(&parts[i], &items[i], table) {
            return false;
        }
    }
    true
}

// List cells, head by head, and what stands behind the last cell. It goes along the tail in a loop: a list may be longer than the stack is deep.
#[cycle(bind)]
#[tactic(auto, using(crate::proofs::Binding::cells_fit))]
fn bind_cells<'a>(
    heads: &[Pattern],
    tail: &Pattern,
    term: &'a Term,
    table: &mut [Option<&'a Term>],
) -> bool
    requires some { 0 < length heads.now }
    requires room { places (list_of heads.now tail.now) ≤ length table.old }
    ensures { bind (list_of heads.now tail.now) term.now (table_of table.old) ≡ (if result then Some (table_of table.new) else None) }
{
    let mut rest = term;
    for head in heads {
        let Some((first, behind)) = cell_parts(rest) else {
            return false;
        };
        if !bind(head, first, table) {
            return false;
        }
        rest = behind;
    }
    bind(tail, rest, table)
}
