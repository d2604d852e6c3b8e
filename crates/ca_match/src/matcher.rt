//! Matching as its definition says it: the specification's term is walked again for each object.
ghost use Rattle.std.specs.Prelude.{◌≡◌, [], ◌∷◌, ◌++◌, ◌<◌, IfOk, None, false, Some, option_and_then, option_map, if◌then◌else◌};
ghost use Rattle.ca_term.specs.Tree.{Atom, Cons, Tuple, row_of};
ghost use Rattle.ca_match.specs.Match.{all_bound, all_values, atom_value, bind, bind_atom, bind_row, bind_variable, bound, call_value, clause_result, fitted, form_value, guarded, pass, result_of, tuple_value, value, values, within};
ghost use Rattle.ca_match.specs.MatcherView.{bindings_of, cells_of, scene_of};
ghost use Rattle.ca_match.specs.OperatorView.{meaning_of, stop_of};
ghost use Rattle.ca_match.specs.Operators.{Short, applied, truth, truth_of};
ghost use Rattle.ca_match.specs.ValueView.{tree_of_value};

use crate::gathering::{push, push_copy};
use crate::operator::Operator;
use crate::part::{cell_parts, tuple_items};
use crate::value::{Value, truth, truth_value};
use crate::variable::variable_number;
use ca_term::{Kind, Term, TermFault, Terms, cons, list, nil, term_order, try_copy, tuple};
use std::alloc::{AllocError, Global};

// What is bound to each of the variables, by their numbers.
type Table<'a> = [Option<&'a Term>; 100];

// A value, where the expression doesn't fail, or want of memory.
type Evaluated<'a> = Result<Option<Value<'a>>, AllocError>;

/// The result that a match specification gives an object: that of the first clause that holds, or `None` where none holds. A term that is no
/// specification gives what the definition of matching says of it.
/// Source: the ERTS user's guide, "Match Specifications in Erlang".
#[tactic(auto, unfolding(crate::specs::Match::result_of))]
pub fn match_result(alloc: Global, spec: &Term, object: &Term) -> Result<Option<Term>, AllocError>
    ensures { IfOk result (λ found. found ≡ result_of spec.now object.now) }
{
    let mut rest = spec;
    while let Kind::Cons(clause, clauses) = rest.kind() {
        if let Some(value) = clause_result(alloc, clause, object)? {
            return Ok(Some(value.into_term(alloc)?));
        }
        rest = clauses;
    }
    Ok(None)
}

// The result of a clause {Head,Guards,Body} where it holds.
#[tactic(auto, using(crate::proofs::Matching::too_few, crate::proofs::Matching::too_many))]
fn clause_result<'a>(alloc: Global, clause: &'a Term, object: &'a Term) -> Evaluated<'a>
    ensures { IfOk result (λ v. option_map tree_of_value v ≡ clause_result clause.now object.now) }
{
    let Kind::Tuple(items) = clause.kind() else {
        return Ok(None);
    };
    match items {
        [head, guards, body] => clause_with(alloc, head, guards, body, object),
        [] | [_] | [_, _] => Ok(None),
        [_, _, _, _, ..] => Ok(None),
    }
}

fn clause_with<'a>(
    alloc: Global,
    head: &'a Term,
    guards: &'a Term,
    body: &'a Term,
    object: &'a Term,
) -> Evaluated<'a>
    ensures { IfOk result (λ v.
        option_map tree_of_value v
        ≡ option_and_then (λ bindings. guarded (record { object = object.now; bindings = bindings }) guards.now body.now) (fitted head.now object.now)) }
{
    let mut table: Table<'a> = [None; 100];
    if !bind(head, object, &mut table) {
        return Ok(None);
    }
    if !pass(alloc, guards, object, &table)? {
        return Ok(None);
    }
    let Kind::Cons(expression, behind) = body.kind() else {
        return Ok(None);
    };
    if !matches!(behind.kind(), Kind::Nil) {
        return Ok(None);
    }
    value(alloc, expression, object, &table)
}

// Whether a part of a head fits a term under the bindings so far; then its variables are bound in the table.
// It goes along lists in a loop: a list may be longer than the stack is deep.
#[cycle(bind)]
#[tactic(auto, using(crate::proofs::Heads::no_tuple, crate::proofs::Heads::no_cell), unfolding(crate::specs::Match::bind))]
fn bind<'a>(part: &Term, term: &'a Term, table: &mut Table<'a>) -> bool
    ensures { bind part.now term.now (bindings_of table.old) ≡ (if result then Some (bindings_of table.new) else None) }
{
    let mut own = part;
    let mut rest = term;
    loop {
        match own.kind() {
            Kind::Cons(head, tail) => {
                let Some((first, behind)) = cell_parts(rest) else {
                    return false;
                };
                if !bind(head, first, table) {
                    return false;
                }
                own = tail;
                rest = behind;
            }
            Kind::Atom(text) => return bind_atom(text, own, rest, table),
            Kind::Tuple(parts) => {
                let Some(items) = tuple_items(rest) else {
                    return false;
                };
                return bind_all(parts, items, table);
            }
            Kind::Int(_) | Kind::Nil | Kind::Bin(_) => return term_order(own, rest).is_eq(),
        }
    }
}

// Elements against elements, from the left.
#[cycle(bind)]
#[tactic(auto, using(crate::proofs::Heads::rows_fit))]
fn bind_all<'a>(parts: &[Term], items: &'a [Term], table: &mut Table<'a>) -> bool
    ensures { bind_row (row_of parts.now) (row_of items.now) (bindings_of table.old) ≡ (if result then Some (bindings_of table.new) else None) }
{
    if parts.len() != items.len() {
        return false;
    }
    for i in 0..parts.len() {
        if !bind(&parts[i], &items[i], table) {
            return false;
        }
    }
    true
}

// An atom of a head.
fn bind_atom<'a>(text: &str, own: &Term, term: &'a Term, table: &mut Table<'a>) -> bool
    requires { own.now ≡ Atom text.now }
    ensures { bind_atom (bindings_of table.old) text.now term.now ≡ (if result then Some (bindings_of table.new) else None) }
{
    if text == "_" {
        return true;
    }
    match variable_number(text) {
        Some(number) => bind_variable(number as usize, term, table),
        None => term_order(own, term).is_eq(),
    }
}

// A variable is bound at its first place, and meets an equal term at a later one.
#[tactic(auto, using(crate::proofs::Matching::variable_new))]
fn bind_variable<'a>(number: usize, term: &'a Term, table: &mut Table<'a>) -> bool
    requires { number < 100 }
    ensures { bind_variable (bindings_of table.old) number (bound (bindings_of table.old) number) term.now
        ≡ (if result then Some (bindings_of table.new) else None) }
{
    match table[number] {
        Some(own) => term_order(own, term).is_eq(),
        None => {
            table[number] = Some(term);
            true
        }
    }
}

// The value of an expression for an object with these bindings.
#[cycle(value)]
#[tactic(auto, unfolding(crate::specs::Match::value))]
fn value<'a>(
    alloc: Global,
    expression: &'a Term,
    object: &'a Term,
    table: &Table<'a>,
) -> Evaluated<'a>
    ensures { IfOk result (λ v. option_map tree_of_value v ≡ value (scene_of object.now table.now) expression.now) }
{
    match expression.kind() {
        Kind::Atom(text) => atom_value(alloc, text, expression, object, table),
        Kind::Tuple(items) => form_value(alloc, items, object, table),
        Kind::Cons(first, behind) => list_value(alloc, first, behind, object, table),
        Kind::Int(_) | Kind::Nil | Kind::Bin(_) => Ok(Some(Value::Lent(expression))),
    }
}

// The value of an atom.
fn atom_value<'a>(
    alloc: Global,
    text: &str,
    own: &'a Term,
    object: &'a Term,
    table: &Table<'a>,
) -> Evaluated<'a>
    requires { own.now ≡ Atom text.now }
    ensures { IfOk result (λ v. option_map tree_of_value v ≡ atom_value (scene_of object.now table.now) text.now) }
{
    if text == "$_" {
        return Ok(Some(Value::Lent(object)));
    }
    if text == "$$" {
        return all_bound(alloc, table);
    }
    match variable_number(text) {
        Some(number) => match table.get(number as usize) {
            Some(Some(term)) => Ok(Some(Value::Lent(*term))),
            Some(None) | None => Ok(None),
        },
        None => Ok(Some(Value::Lent(own))),
    }
}

// The list of what is bound, in the order of the variables' numbers.
#[tactic(auto, using(crate::proofs::Matching::bound_table, crate::proofs::Matching::shallow, crate::proofs::Matching::deep))]
fn all_bound<'a>(alloc: Global, table: &Table<'a>) -> Evaluated<'a>
    ensures { IfOk result (λ v. option_map tree_of_value v ≡ within (all_bound (bindings_of table.now))) }
{
    let mut terms = Terms::new(alloc);
    for place in table {
        if let Some(term) = place {
            push_copy(alloc, &mut terms, term)?;
        }
    }
    match list(alloc, terms, nil()) {
        Ok(term) => Ok(Some(Value::Owned(term))),
        Err(TermFault::TooDeep) => Ok(None),
        Err(TermFault::AtomTooLong | TermFault::TooWide | TermFault::NoMemory) => Err(AllocError),
    }
}

// The value of a list by its first head and what stands behind it.
#[cycle(value)]
#[tactic(auto, using(crate::proofs::Matching::cells_push, crate::proofs::Matching::cells_none), unfolding(crate::specs::Match::value))]
fn list_value<'a>(
    alloc: Global,
    first: &'a Term,
    behind: &'a Term,
    object: &'a Term,
    table: &Table<'a>,
) -> Evaluated<'a>
    ensures { IfOk result (λ v. option_map tree_of_value v ≡ value (scene_of object.now table.now) (Cons first.now behind.now)) }
{
    let Some(first) = term_value(alloc, first, object, table)? else {
        return Ok(None);
    };
    let mut heads = Vec::new(alloc);
    heads.push(first)?;
    let mut rest = behind;
    while let Kind::Cons(head, tail) = rest.kind() {
        let Some(head) = term_value(alloc, head, object, table)? else {
            return Ok(None);
        };
        heads.push(head)?;
        rest = tail;
    }
    match term_value(alloc, rest, object, table)? {
        Some(tail) => cells(alloc, heads, tail),
        None => Ok(None),
    }
}

// The value of an expression as a term.
#[cycle(value)]
fn term_value<'a>(
    alloc: Global,
    expression: &'a Term,
    object: &'a Term,
    table: &Table<'a>,
) -> Result<Option<Term>, AllocError>
    ensures { IfOk result (λ t. t ≡ value (scene_of object.now table.now) expression.now) }
{
    match value(alloc, expression, object, table)? {
        Some(value) => Ok(Some(value.into_term(alloc)?)),
        None => Ok(None),
    }
}

// The list of these heads with this tail, where no cell is too deep.
#[tactic(auto, using(crate::proofs::Matching::cells_pop, crate::proofs::Matching::cells_deep))]
fn cells<'a>(alloc: Global, heads: Vec<Term>, tail: Term) -> Evaluated<'a>
    ensures { IfOk result (λ v. option_map tree_of_value v ≡ cells_of heads.items (Some tail)) }
{
    let mut heads = heads;
    let mut list = tail;
    while let Some(head) = heads.pop() {
        match cons(alloc, head, list) {
            Ok(cell) => list = cell,
            Err(TermFault::TooDeep) => return Ok(None),
            Err(TermFault::AtomTooLong | TermFault::TooWide | TermFault::NoMemory) => {
                return Err(AllocError);
            }
        }
    }
    Ok(Some(Value::Owned(list)))
}

// The value of a tuple: one that makes a tuple, a constant, or an operator with its arguments.
#[cycle(value)]
#[tactic(auto, unfolding(crate::specs::Match::form_value, crate::specs::Match::values))]
fn form_value<'a>(
    alloc: Global,
    items: &'a [Term],
    object: &'a Term,
    table: &Table<'a>,
) -> Evaluated<'a>
    ensures { IfOk result (λ v. option_map tree_of_value v ≡ form_value (scene_of object.now table.now) (row_of items.now)) }
{
    match items {
        [] => Ok(None),
        [only] => tuple_value(alloc, only, object, table),
        [name, arguments @ ..] => call_value(alloc, name, arguments, object, table),
    }
}

// {{E1,..,En}} by its one element.
#[cycle(value)]
#[tactic(auto, using(crate::proofs::Matching::tuples_built), unfolding(crate::specs::Match::tuple_value))]
fn tuple_value<'a>(
    alloc: Global,
    only: &'a Term,
    object: &'a Term,
    table: &Table<'a>,
) -> Evaluated<'a>
    ensures { IfOk result (λ v. option_map tree_of_value v ≡ tuple_value (scene_of object.now table.now) only.now) }
{
    let Kind::Tuple(items) = only.kind() else {
        return Ok(None);
    };
    let Some(terms) = terms(alloc, items, object, table)? else {
        return Ok(None);
    };
    match tuple(terms) {
        Ok(term) => Ok(Some(Value::Owned(term))),
        Err(TermFault::TooDeep) => Ok(None),
        Err(TermFault::AtomTooLong | TermFault::TooWide | TermFault::NoMemory) => Err(AllocError),
    }
}

// The values of several expressions as terms, unless one fails.
#[cycle(value)]
#[tactic(auto, using(crate::proofs::Gathered::part_values))]
fn terms<'a>(
    alloc: Global,
    items: &'a [Term],
    object: &'a Term,
    table: &Table<'a>,
) -> Result<Option<Terms>, AllocError>
    ensures { IfOk result (λ terms. option_map (λ ts. ts.items) terms ≡ all_values (values (scene_of object.now table.now) (row_of items.now))) }
{
    let mut terms = Terms::new(alloc);
    for item in items {
        let Some(term) = term_value(alloc, item, object, table)? else {
            return Ok(None);
        };
        push(&mut terms, term)?;
    }
    Ok(Some(terms))
}

// {const,T} or {Op,E1,..,En} by its name and what stands behind it.
#[cycle(value)]
#[tactic(auto, using(crate::proofs::Matching::no_constant), unfolding(crate::specs::Match::values))]
fn call_value<'a>(
    alloc: Global,
    name: &'a Term,
    arguments: &'a [Term],
    object: &'a Term,
    table: &Table<'a>,
) -> Evaluated<'a>
    ensures { IfOk result (λ v.
        option_map tree_of_value v ≡ call_value name.now (row_of arguments.now) (values (scene_of object.now table.now) (row_of arguments.now))) }
{
    let Kind::Atom(text) = name.kind() else {
        return Ok(None);
    };
    if text == "const" {
        return match arguments {
            [term] => Ok(Some(Value::Lent(term))),
            [] => Ok(None),
            [_, _, ..] => Ok(None),
        };
    }
    match Operator::of(text) {
        Some(operator) => operator_value(alloc, operator, arguments, object, table),
        None => Ok(None),
    }
}

// The value of an operator at these arguments.
#[cycle(value)]
#[tactic(auto, using(crate::proofs::Matching::too_many_arguments), unfolding(crate::specs::Match::values))]
fn operator_value<'a>(
    alloc: Global,
    operator: Operator,
    arguments: &'a [Term],
    object: &'a Term,
    table: &Table<'a>,
) -> Evaluated<'a>
    ensures { IfOk result (λ v. option_map tree_of_value v ≡ applied (meaning_of operator) (values (scene_of object.now table.now) (row_of arguments.now))) }
{
    match arguments {
        [a] => match value(alloc, a, object, table)? {
            Some(a) => operator.value_of_one(alloc, a),
            None => Ok(None),
        },
        [a, b] => match operator.stop() {
            Some(stop) => short_value(alloc, stop, a, b, object, table),
            None => value_of_two(alloc, operator, a, b, object, table),
        },
        [] => Ok(None),
        [_, _, _, ..] => Ok(None),
    }
}

// The value of an operator of two arguments that are both evaluated.
#[cycle(value)]
fn value_of_two<'a>(
    alloc: Global,
    operator: Operator,
    a: &'a Term,
    b: &'a Term,
    object: &'a Term,
    table: &Table<'a>,
) -> Evaluated<'a>
    requires { stop_of (meaning_of operator) ≡ None }
    ensures { let scene = scene_of object.now table.now in
        IfOk result (λ v. option_map tree_of_value v ≡ applied (meaning_of operator) (value scene a.now ∷ value scene b.now ∷ [])) }
{
    let Some(a) = value(alloc, a, object, table)? else {
        return Ok(None);
    };
    let Some(b) = value(alloc, b, object, table)? else {
        return Ok(None);
    };
    operator.value_of_two(alloc, a, b)
}

// The value of `andalso` or `orelse`, which stops at this truth value of the first argument.
#[cycle(value)]
fn short_value<'a>(
    alloc: Global,
    stop: bool,
    a: &'a Term,
    b: &'a Term,
    object: &'a Term,
    table: &Table<'a>,
) -> Evaluated<'a>
    ensures { let scene = scene_of object.now table.now in
        IfOk result (λ v. option_map tree_of_value v ≡ applied (Short stop) (value scene a.now ∷ value scene b.now ∷ [])) }
{
    match truth_at(alloc, a, object, table)? {
        Some(first) => {
            if first == stop {
                return Ok(Some(Value::Truth(first)));
            }
            Ok(truth_value(truth_at(alloc, b, object, table)?))
        }
        None => Ok(None),
    }
}

// The truth value that the value of an expression is.
#[cycle(value)]
fn truth_at<'a>(
    alloc: Global,
    expression: &'a Term,
    object: &'a Term,
    table: &Table<'a>,
) -> Result<Option<bool>, AllocError>
    ensures { IfOk result (λ known. known ≡ option_and_then truth_of (value (scene_of object.now table.now) expression.now)) }
{
    Ok(truth(&value(alloc, expression, object, table)?))
}

// Whether all guards of a list have the value true.
#[tactic(auto, unfolding(crate::specs::Match::pass))]
fn pass<'a>(
    alloc: Global,
    guards: &'a Term,
    object: &'a Term,
    table: &Table<'a>,
) -> Result<bool, AllocError>
    ensures { IfOk result (λ passed. passed ≡ pass (scene_of object.now table.now) guards.now) }
{
    let mut rest = guards;
    while let Kind::Cons(guard, others) = rest.kind() {
        match truth_at(alloc, guard, object, table)? {
            Some(true) => rest = others,
            Some(false) | None => return Ok(false),
        }
    }
    Ok(matches!(rest.kind(), Kind::Nil))
}
