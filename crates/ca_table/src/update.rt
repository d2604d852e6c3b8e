//! Updates of a key's object through a store, by the object's code.
ghost use Rattle.std.specs.Prelude.{◌≡◌, None, ◌≤◌, ◌≤ℤ◌, ◌<◌, ℕ, ℤ, Result, Err, List, FitsSigned, IsTrue, length, map, pos as whole};
ghost use Rattle.std.specs.Int.{w64};
ghost use Rattle.ca_term.specs.declared.bounds.TheConstants.{MOST_CODE_BYTES};
ghost use Rattle.ca_term.specs.Tree.{Tree, Row, Tuple};
ghost use Rattle.ca_term.specs.Code.{code_of};
ghost use Rattle.ca_term.specs.Add.{addition_of};
ghost use Rattle.ca_term.specs.Updates.{ElementFault, is_open};
ghost use Rattle.ca_order.specs.Patches.{IsTupleCode, IsElementCode, answer_of_fault};
ghost use Rattle.ca_ets.specs.Step.{fault_of};
ghost use Rattle.ca_model.specs.Known.{Declines};
ghost use Rattle.ca_model.specs.Answer.{IfDone, IfRefused, IfBusy, IsNeverDeep};
ghost use Rattle.ca_table.specs.Renewed.{IsObjectCode, IsUpdate, Renews, Updated, by_element, by_operations};

use crate::follower::Follower;
use ca_ets::Fault;
use ca_model::{Changed, Code, OrderedStore, Outcome};
use ca_order::{Patched, object_parts, patch, set};
use ca_term::Add;

// Carries out operations on counters of the key's object: none but those that all pass together. `old` is the object before them.
pub(crate) fn count<S: OrderedStore, W: Follower<S>>(
    store: &mut S,
    key: &Code,
    keypos: u32,
    adds: &[Add],
    old: &mut Code,
    budget: u32,
) -> Outcome<Changed>
    requires positive { 1 ≤ keypos }
    requires keypos { keypos ≡ (S.knows store.old).keypos }
    requires closed { (S.knows store.old).run ≡ None }
    requires budget { 1 ≤ budget }
    requires key { 1 ≤ length key.now.items }
    ensures updated { IfDone result (λ changed. Updated (S.knows store.old) (S.knows store.new) key.now.items
        (by_operations keypos (map addition_of adds.now)) changed old.new.items) }
    ensures refused { IfRefused result (λ rise. Declines (S.knows store.old) (S.knows store.new) (rise (S.knows store.old).counts)) }
    ensures never_deep { IsNeverDeep result }
    ensures busy { IfBusy result (λ spent. budget ≤ spent) }
    ensures asked { W.asked budget store.old store.new result }
    ensures closed { (S.knows store.new).run ≡ None }
{
    let renew = |object: &[u8], into: &mut Code, at: &mut usize| -> bool
        requires { (row : Row) × IsObjectCode keypos row object.now }
        ensures { (row : Row) → IsObjectCode keypos row object.now
            → Renews keypos (Tuple row) (by_operations keypos (map addition_of adds.entry.now) (Tuple row)) result into.new.items at.new }
    { counted(object, keypos, adds, into, at) };
    W::change(store, key.as_slice(), &renew, old, budget)
}

// Puts another element, of this code, into the key's object. `old` is the object before it.
pub(crate) fn replace<S: OrderedStore, W: Follower<S>>(
    store: &mut S,
    key: &Code,
    keypos: u32,
    pos: i64,
    value: &Code,
    old: &mut Code,
    budget: u32,
) -> Outcome<Changed>
    requires positive { 1 ≤ keypos }
    requires keypos { keypos ≡ (S.knows store.old).keypos }
    requires closed { (S.knows store.old).run ≡ None }
    requires budget { 1 ≤ budget }
    requires key { 1 ≤ length key.now.items }
    requires pos { IsTrue (is_open keypos pos) }
    requires value { (v : Tree) × IsElementCode v value.now.items }
    ensures updated { (v : Tree) → IsElementCode v value.now.items → IfDone result (λ changed.
        Updated (S.knows store.old) (S.knows store.new) key.now.items (by_element pos v) changed old.new.items) }
    ensures refused { IfRefused result (λ rise. Declines (S.knows store.old) (S.knows store.new) (rise (S.knows store.old).counts)) }
    ensures never_deep { IsNeverDeep result }
    ensures busy { IfBusy result (λ spent. budget ≤ spent) }
    ensures asked { W.asked budget store.old store.new result }
    ensures closed { (S.knows store.new).run ≡ None }
{
    let renew = |object: &[u8], into: &mut Code, at: &mut usize| -> bool
        requires object { (row : Row) × IsObjectCode keypos row object.now }
        requires value { (v : Tree) × IsElementCode v value.now.items }
        requires pos { IsTrue (is_open keypos pos) }
        requires range { FitsSigned w64 pos }
        ensures { (row : Row) (v : Tree) → IsObjectCode keypos row object.now → IsElementCode v value.entry.now.items
            → Renews keypos (Tuple row) (by_element pos v (Tuple row)) result into.new.items at.new }
    { replaced(object, keypos, pos, value, into, at) };
    W::change(store, key.as_slice(), &renew, old, budget)
}

// Writes what operations leave of an object, and where its key begins there.
fn counted(object: &[u8], keypos: u32, adds: &[Add], into: &mut Code, at: &mut usize) -> bool
    requires { (row : Row) × IsObjectCode keypos row object.now }
    ensures { (row : Row) → IsObjectCode keypos row object.now
        → Renews keypos (Tuple row) (by_operations keypos (map addition_of adds.now) (Tuple row)) result into.new.items at.new }
{
    let answer = patch(object, keypos, adds, into);
    is_written(answer, keypos, into, at)
}

// Writes what another element leaves of an object, and where its key begins there.
fn replaced(
    object: &[u8],
    keypos: u32,
    pos: i64,
    value: &Code,
    into: &mut Code,
    at: &mut usize,
) -> bool
    requires object { (row : Row) × IsObjectCode keypos row object.now }
    requires value { (v : Tree) × IsElementCode v value.now.items }
    requires pos { IsTrue (is_open keypos pos) }
    ensures { (row : Row) (v : Tree) → IsObjectCode keypos row object.now → IsElementCode v value.now.items
        → Renews keypos (Tuple row) (by_element pos v (Tuple row)) result into.new.items at.new }
{
    let answer = set(object, keypos, pos, value.as_slice(), into);
    is_written(answer, keypos, into, at)
}

// Whether an update wrote a new object; then `at` is where its key begins.
fn is_written(answer: Patched, keypos: u32, code: &Code, at: &mut usize) -> bool
    requires { (old : Tree) × (update : Result Tree ElementFault) × IsUpdate keypos old update answer code.now.items }
    ensures { (old : Tree) (update : Result Tree ElementFault) → IsUpdate keypos old update answer code.now.items
        → Renews keypos old update result code.now.items at.new }
{
    let Patched::Done = answer else {
        return false;
    };
    let Some((start, _)) = object_parts(code.as_slice(), keypos) else {
        unreachable!()
    };
    *at = start;
    true
}

// ---- faults

// Why operations on counters of an object fail.
pub(crate) fn fault_of_counts(object: &Code, keypos: u32, adds: &[Add]) -> Fault
    requires { (row : Row) × IsTupleCode row object.now.items }
    ensures { (row : Row) (fault : ElementFault) → IsTupleCode row object.now.items
        → by_operations keypos (map addition_of adds.now) (Tuple row) ≡ Err fault → result ≡ fault_of fault }
{
    let answer = patch(object.as_slice(), keypos, adds, &mut Code::new());
    fault_of(answer)
}

// Why an object can't have another element.
pub(crate) fn fault_of_element(object: &Code, keypos: u32, pos: i64, value: &Code) -> Fault
    requires object { (row : Row) × IsTupleCode row object.now.items }
    requires value { (v : Tree) × IsElementCode v value.now.items }
    requires pos { IsTrue (is_open keypos pos) }
    ensures { (row : Row) (v : Tree) (fault : ElementFault) → IsTupleCode row object.now.items → IsElementCode v value.now.items
        → by_element pos v (Tuple row) ≡ Err fault → result ≡ fault_of fault }
{
    let answer = set(
        object.as_slice(),
        keypos,
        pos,
        value.as_slice(),
        &mut Code::new(),
    );
    fault_of(answer)
}

// Why an object can't have an element whose own code is too long for an object's.
pub(crate) fn fault_of_long_element(object: &Code, pos: i64) -> Fault
    requires object { (row : Row) × IsTupleCode row object.now.items }
    requires pos { whole 1 ≤ℤ pos }
    ensures { (row : Row) (v : Tree) → IsTupleCode row object.now.items → MOST_CODE_BYTES < length (code_of v)
        → (fault : ElementFault) × (by_element pos v (Tuple row) ≡ Err fault) × (result ≡ fault_of fault) }
{
    let Ok(position) = u32::try_from(pos) else {
        return Fault::BadArg;
    };
    match object_parts(object.as_slice(), position) {
        Some(_) => Fault::Size,
        None => Fault::BadArg,
    }
}

// The error that an update answers with which fails so.
fn fault_of(answer: Patched) -> Fault
    ensures { (fault : ElementFault) → answer ≡ answer_of_fault fault → result ≡ fault_of fault }
{
    match answer {
        Patched::Range => Fault::Range,
        Patched::TooLong => Fault::Size,
        Patched::BadArg | Patched::Done => Fault::BadArg,
    }
}
