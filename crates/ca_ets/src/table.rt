//! A table as a list of objects in key order.
ghost use Rattle.std.specs.Prelude.{◌≡◌, ◌⊎◌, ◌≤◌, ◌<◌, List, [], ◌∷◌, length, take, drop, slice_index_or, slice_set, IfOk, IsOk, OnOk, OnErr};
ghost use Rattle.std.specs.List.{remove};
ghost use Rattle.ca_term.specs.Object.{key_of};
ghost use Rattle.ca_term.specs.Tree.{Nil, Tree};
ghost use Rattle.ca_ets.specs.Command.{Continuation, IsContinuation, continuation_of, response_of};
ghost use Rattle.ca_ets.specs.declared.command.Cmd.TheVariants.{Delete, Member};
ghost use Rattle.ca_ets.specs.OrderedMap.{IsTable, above};
ghost use Rattle.ca_ets.specs.Place.{IsInRange, IsPlace, placed};
ghost use Rattle.ca_match.specs.Specification.{IsSpecification};
ghost use Rattle.ca_ets.specs.Unless.{IsUnless};
ghost use Rattle.ca_ets.specs.Step.{fault_of_key, fault_of_object, step, step_of_delete, step_of_insert, step_of_insert_new, step_of_lookup, step_of_member, step_of_reply, step_of_take, step_of_update_counter, step_of_update_element, step_of_first, step_of_last, step_of_next, step_of_prev, step_of_select, step_of_select_range, step_of_batch, step_of_more, step_of_results, keyed_results, first_key, last_key, limit_of};
ghost use Rattle.ca_ets.specs.Update.{element_of, operations_of};

use crate::change::{Stop, counters, with_element};
use crate::command::{Cmd, Cont, Fault, Reply};
use crate::object::{copied, fits, key, key_order, own_key};
use crate::selection::{batch, limit_of, results, results_between};
use crate::update::{Operations, element, reply_of};
use ca_match::is_specification;
use ca_term::{Term, Terms};
use std::alloc::{AllocError, Global};
use std::marker::Model;
use std::mem;

// Where a key stands in a table.
#[derive(Clone, Copy)]
enum Place {
    // At this object.
    At(usize),
    // No object has it; here one would stand.
    Before(usize),
}

/// An `ordered_set` kept as a list of its objects in key order. Contracts see its `keypos` and its objects.
/// Source: the ets manual, the table type `ordered_set` and the option `keypos`.
#[derive(Drop)]
pub struct ListTable {
    keypos: u32,
    objects: Vec<Term>,
}

impl Model for ListTable {
    ghost use Rattle.ca_ets.specs.Table.{Table, table_stored};

    ghost Value = { Table };

    ghost coded = { table_stored };

    ghost use Rattle.ca_ets.specs.ListTableView.{table_of, IsOrdered};

    ghost view = { table_of };

    ghost invariant = { IsOrdered };
}

impl ListTable {
    /// A table with no objects; element number `keypos` of an object, counted from 1, is its key. It takes no memory.
    pub fn new(alloc: Global, keypos: u32) -> ListTable
        requires { 1 ≤ keypos }
        ensures keypos { result.keypos ≡ keypos }
        ensures objects { result.objects ≡ [] }
    {
        ListTable {
            keypos,
            objects: Vec::new(alloc),
        }
    }

    /// Which element of an object is its key, counted from 1.
    pub fn keypos(&self) -> u32
        ensures value { result ≡ self.now.keypos }
        ensures positive { 1 ≤ self.now.keypos }
    {
        self.keypos
    }

    /// The objects, in key order. It also tells that they are a table.
    pub fn objects(&self) -> &[Term]
        ensures value { result.now ≡ self.now.objects }
        ensures ordered { IsTable self.now.keypos self.now.objects }
    {
        self.objects.as_slice()
    }

    /// One step of one thread: what the command does to the table and to its client's continuation, and the reply.
    /// A command that is answered with an error changes nothing, and so does one for which memory is not found: `member` and `delete` take none.
    /// Source: the ets manual's text on each call; the order of the checks and the error `Size` are this project's own.
    pub fn apply(&mut self, alloc: Global, cmd: &Cmd, cont: &mut Cont) -> Result<Reply, AllocError>
        requires { IsContinuation (continuation_of cont.old) }
        ensures step { IfOk result (λ reply. step self.old.keypos self.old.objects (continuation_of cont.old) cmd.now
            ≡ step_of_reply self.new.objects (continuation_of cont.new) reply) }
        ensures continuation { IsContinuation (continuation_of cont.new) }
        ensures keypos { self.new.keypos ≡ self.old.keypos }
        ensures table_unchanged { OnErr result (self.new ≡ self.old) }
        ensures continuation_unchanged { OnErr result (cont.new ≡ cont.old) }
        ensures without_memory { (k : Tree) → (cmd.now ≡ Member k) ⊎ (cmd.now ≡ Delete k) → IsOk result }
    {
        match cmd {
            Cmd::Insert(object) => self.insert(alloc, object),
            Cmd::InsertNew(object) => self.insert_new(alloc, object),
            Cmd::Lookup(k) => self.lookup(alloc, k),
            Cmd::Member(k) => Ok(self.member(k)),
            Cmd::Delete(k) => Ok(self.delete(k)),
            Cmd::Take(k) => self.take(alloc, k),
            Cmd::UpdateCounter(k, op) => self.update_counter(alloc, k, op),
            Cmd::UpdateElement(k, op) => self.update_element(alloc, k, op),
            Cmd::First => self.first(alloc),
            Cmd::Last => self.last(alloc),
            Cmd::Next(k) => self.next(alloc, k),
            Cmd::Prev(k) => self.prev(alloc, k),
            Cmd::Select(spec) => self.select(alloc, spec),
            Cmd::SelectRange(lo, hi, spec) => self.select_range(alloc, lo, hi, spec),
            Cmd::Batch(spec, limit) => self.batch(alloc, spec, limit, cont),
            Cmd::More => self.more(alloc, cont),
        }
    }

    // `insert`
    #[tactic(auto, using(crate::proofs::Steps::leaving, crate::proofs::Places::place_range))]
    fn insert(&mut self, alloc: Global, object: &Term) -> Result<Reply, AllocError>
        ensures step { (continuation : Continuation) → IfOk result (λ reply. step_of_insert self.old.keypos self.old.objects continuation object.now
            ≡ step_of_reply self.new.objects continuation reply) }
        ensures keypos { self.new.keypos ≡ self.old.keypos }
        ensures unchanged { OnErr result (self.new ≡ self.old) }
    {
        let place = match self.object_place(object) {
            Ok(place) => place,
            Err(fault) => return Ok(Reply::Error(fault)),
        };
        put_copy(alloc, &mut self.objects, place, object)?;
        Ok(Reply::Truth(true))
    }

    // `insert_new`: where an object has the key it takes no memory.
    #[tactic(auto, using(crate::proofs::Steps::leaving, crate::proofs::Places::place_range))]
    fn insert_new(&mut self, alloc: Global, object: &Term) -> Result<Reply, AllocError>
        ensures step { (continuation : Continuation) → IfOk result (λ reply. step_of_insert_new self.old.keypos self.old.objects continuation object.now
            ≡ step_of_reply self.new.objects continuation reply) }
        ensures keypos { self.new.keypos ≡ self.old.keypos }
        ensures unchanged { OnErr result (self.new ≡ self.old) }
    {
        let place = match self.object_place(object) {
            Ok(Place::At(_)) => return Ok(Reply::Truth(false)),
            Ok(place) => place,
            Err(fault) => return Ok(Reply::Error(fault)),
        };
        put_copy(alloc, &mut self.objects, place, object)?;
        Ok(Reply::Truth(true))
    }

    // `lookup`
    fn lookup(&self, alloc: Global, k: &Term) -> Result<Reply, AllocError>
        ensures { (continuation : Continuation) → IfOk result (λ reply. step_of_lookup self.now.keypos self.now.objects continuation k.now
            ≡ step_of_reply self.now.objects continuation reply) }
    {
        match self.key_place(k) {
            Ok(Place::At(at)) => Ok(Reply::List(only(alloc, &self.objects[at])?)),
            Ok(Place::Before(_)) => Ok(Reply::List(Terms::new(alloc))),
            Err(fault) => Ok(Reply::Error(fault)),
        }
    }

    // `member`
    fn member(&self, k: &Term) -> Reply
        ensures { (continuation : Continuation) → step_of_member self.now.keypos self.now.objects continuation k.now
            ≡ step_of_reply self.now.objects continuation result }
    {
        match self.key_place(k) {
            Ok(Place::At(_)) => Reply::Truth(true),
            Ok(Place::Before(_)) => Reply::Truth(false),
            Err(fault) => Reply::Error(fault),
        }
    }

    // `delete`
    #[tactic(auto, using(crate::proofs::Steps::leaving, crate::proofs::Places::place_range))]
    fn delete(&mut self, k: &Term) -> Reply
        ensures step { (continuation : Continuation) → step_of_delete self.old.keypos self.old.objects continuation k.now
            ≡ step_of_reply self.new.objects continuation result }
        ensures keypos { self.new.keypos ≡ self.old.keypos }
    {
        match self.key_place(k) {
            Ok(Place::At(at)) => {
                let _old = self.objects.remove(at);
                Reply::Truth(true)
            }
            Ok(Place::Before(_)) => Reply::Truth(true),
            Err(fault) => Reply::Error(fault),
        }
    }

    // `take`
    #[tactic(auto, using(crate::proofs::Steps::leaving, crate::proofs::Places::place_range))]
    fn take(&mut self, alloc: Global, k: &Term) -> Result<Reply, AllocError>
        ensures step { (continuation : Continuation) → IfOk result (λ reply. step_of_take self.old.keypos self.old.objects continuation k.now
            ≡ step_of_reply self.new.objects continuation reply) }
        ensures keypos { self.new.keypos ≡ self.old.keypos }
        ensures unchanged { OnErr result (self.new ≡ self.old) }
    {
        match self.key_place(k) {
            Ok(Place::At(at)) => Ok(Reply::List(take_at(alloc, &mut self.objects, at)?)),
            Ok(Place::Before(_)) => Ok(Reply::List(Terms::new(alloc))),
            Err(fault) => Ok(Reply::Error(fault)),
        }
    }

    // `update_counter`: the arguments are checked first, then the key, then the object.
    fn update_counter(&mut self, alloc: Global, k: &Term, op: &Term) -> Result<Reply, AllocError>
        ensures step { (continuation : Continuation) → IfOk result (λ reply.
            step_of_update_counter self.old.keypos self.old.objects continuation k.now (operations_of self.old.keypos op.now)
            ≡ step_of_reply self.new.objects continuation reply) }
        ensures keypos { self.new.keypos ≡ self.old.keypos }
        ensures unchanged { OnErr result (self.new ≡ self.old) }
    {
        let Some(operations) = Operations::of(alloc, self.keypos, op)? else {
            return Ok(Reply::Error(Fault::BadArg));
        };
        let at = match self.key_place(k) {
            Ok(Place::At(at)) => at,
            Ok(Place::Before(_)) => return Ok(Reply::Error(Fault::BadArg)),
            Err(fault) => return Ok(Reply::Error(fault)),
        };
        match counters(alloc, self.keypos, &self.objects[at], operations.as_slice()) {
            Ok((object, values)) => {
                let reply = reply_of(alloc, &operations, values.as_slice())?;
                replace(&mut self.objects, at, object);
                Ok(reply)
            }
            Err(Stop::Refused(fault)) => Ok(Reply::Error(fault)),
            Err(Stop::NoMemory) => Err(AllocError),
        }
    }

    // `update_element`: the arguments are checked first, then the key, then the object.
    fn update_element(&mut self, alloc: Global, k: &Term, op: &Term) -> Result<Reply, AllocError>
        ensures step { (continuation : Continuation) → IfOk result (λ reply.
            step_of_update_element self.old.keypos self.old.objects continuation k.now (element_of self.old.keypos op.now)
            ≡ step_of_reply self.new.objects continuation reply) }
        ensures keypos { self.new.keypos ≡ self.old.keypos }
        ensures unchanged { OnErr result (self.new ≡ self.old) }
    {
        let Some((pos, value)) = element(self.keypos, op) else {
            return Ok(Reply::Error(Fault::BadArg));
        };
        let at = match self.key_place(k) {
            Ok(Place::At(at)) => at,
            Ok(Place::Before(_)) => return Ok(Reply::Truth(false)),
            Err(fault) => return Ok(Reply::Error(fault)),
        };
        match with_element(alloc, &self.objects[at], pos, value) {
            Ok(object) => {
                replace(&mut self.objects, at, object);
                Ok(Reply::Truth(true))
            }
            Err(Stop::Refused(fault)) => Ok(Reply::Error(fault)),
            Err(Stop::NoMemory) => Err(AllocError),
        }
    }

    // `first`
    fn first(&self, alloc: Global) -> Result<Reply, AllocError>
        ensures { (continuation : Continuation) → IfOk result (λ reply. step_of_first self.now.keypos self.now.objects continuation
            ≡ step_of_reply self.now.objects continuation reply) }
    {
        key_from(alloc, self.keypos, self.objects.as_slice(), 0)
    }

    // `last`
    fn last(&self, alloc: Global) -> Result<Reply, AllocError>
        ensures { (continuation : Continuation) → IfOk result (λ reply. step_of_last self.now.keypos self.now.objects continuation
            ≡ step_of_reply self.now.objects continuation reply) }
    {
        key_before(
            alloc,
            self.keypos,
            self.objects.as_slice(),
            self.objects.len(),
        )
    }

    // `next`
    #[tactic(auto, using(crate::proofs::Places::place_range))]
    fn next(&self, alloc: Global, k: &Term) -> Result<Reply, AllocError>
        ensures { (continuation : Continuation) → IfOk result (λ reply. step_of_next self.now.keypos self.now.objects continuation k.now
            ≡ step_of_reply self.now.objects continuation reply) }
    {
        let objects = self.objects.as_slice();
        match self.key_place(k) {
            Ok(Place::At(at)) => key_from(alloc, self.keypos, objects, at + 1),
            Ok(Place::Before(at)) => key_from(alloc, self.keypos, objects, at),
            Err(fault) => Ok(Reply::Error(fault)),
        }
    }

    // `prev`
    #[tactic(auto, using(crate::proofs::Places::place_range))]
    fn prev(&self, alloc: Global, k: &Term) -> Result<Reply, AllocError>
        ensures { (continuation : Continuation) → IfOk result (λ reply. step_of_prev self.now.keypos self.now.objects continuation k.now
            ≡ step_of_reply self.now.objects continuation reply) }
    {
        let objects = self.objects.as_slice();
        match self.key_place(k) {
            Ok(Place::At(at) | Place::Before(at)) => key_before(alloc, self.keypos, objects, at),
            Err(fault) => Ok(Reply::Error(fault)),
        }
    }

    // `select`
    fn select(&self, alloc: Global, spec: &Term) -> Result<Reply, AllocError>
        ensures { (continuation : Continuation) → IfOk result (λ reply. step_of_select self.now.objects continuation spec.now
            ≡ step_of_reply self.now.objects continuation reply) }
    {
        if !is_specification(spec) {
            return Ok(Reply::Error(Fault::BadArg));
        }
        Ok(Reply::List(results(alloc, spec, self.objects.as_slice())?))
    }

    // `select_range`: the specification is checked first, then the keys.
    fn select_range(
        &self,
        alloc: Global,
        lo: &Term,
        hi: &Term,
        spec: &Term,
    ) -> Result<Reply, AllocError>
        ensures { (continuation : Continuation) → IfOk result (λ reply.
            step_of_select_range self.now.keypos self.now.objects continuation lo.now hi.now spec.now
            ≡ step_of_reply self.now.objects continuation reply) }
    {
        if !is_specification(spec) {
            return Ok(Reply::Error(Fault::BadArg));
        }
        if !fits(lo) || !fits(hi) {
            return Ok(Reply::Error(Fault::Size));
        }
        let objects = self.objects.as_slice();
        let found = results_between(alloc, self.keypos, spec, objects, lo, hi)?;
        Ok(Reply::List(found))
    }

    // `batch`
    #[tactic(auto, using(ca_match::proofs::Specifications::no_fault))]
    fn batch(
        &self,
        alloc: Global,
        spec: &Term,
        limit: &Term,
        cont: &mut Cont,
    ) -> Result<Reply, AllocError>
        ensures step { IfOk result (λ reply.
            step_of_batch self.now.keypos self.now.objects (continuation_of cont.old) spec.now (limit_of limit.now)
            ≡ step_of_reply self.now.objects (continuation_of cont.new) reply) }
        ensures continuation { IsContinuation (continuation_of cont.old) → IsContinuation (continuation_of cont.new) }
        ensures unchanged { OnErr result (cont.new ≡ cont.old) }
    {
        let Some(limit) = limit_of(limit) else {
            return Ok(Reply::Error(Fault::BadArg));
        };
        if !is_specification(spec) {
            return Ok(Reply::Error(Fault::BadArg));
        }
        let (reply, next) = batch(alloc, self.keypos, spec, limit, self.objects.as_slice())?;
        *cont = next;
        Ok(reply)
    }

    // `more`
    fn more(&self, alloc: Global, cont: &mut Cont) -> Result<Reply, AllocError>
        requires { IsContinuation (continuation_of cont.old) }
        ensures step { IfOk result (λ reply. step_of_more self.now.keypos self.now.objects (continuation_of cont.old)
            ≡ step_of_reply self.now.objects (continuation_of cont.new) reply) }
        ensures continuation { IsContinuation (continuation_of cont.new) }
        ensures unchanged { OnErr result (cont.new ≡ cont.old) }
    {
        let (reply, next) = match cont {
            Cont::Never => return Ok(Reply::Error(Fault::BadArg)),
            Cont::AtEnd => return Ok(Reply::End),
            Cont::At { spec, limit, key } => self.batch_behind(alloc, spec, *limit, key)?,
        };
        *cont = next;
        Ok(reply)
    }

    // The batch behind a key: the reply, and where it leaves the client.
    #[tactic(auto, using(crate::proofs::Steps::table_above))]
    fn batch_behind(
        &self,
        alloc: Global,
        spec: &Term,
        limit: u64,
        k: &Term,
    ) -> Result<(Reply, Cont), AllocError>
        requires specification { IsSpecification spec.now }
        requires limit { 1 ≤ limit }
        ensures continuation { IfOk result (λ made. IsContinuation (continuation_of made.1)) }
        ensures step { (map : List Tree) → IfOk result (λ made.
            step_of_results map spec.now limit (keyed_results self.now.keypos spec.now (above self.now.keypos self.now.objects k.now))
            ≡ step_of_reply map (continuation_of made.1) made.0) }
    {
        let behind = behind(self.objects.as_slice(), self.keypos, k);
        batch(alloc, self.keypos, spec, limit, behind)
    }

    // Where the key of a command stands, or why it is refused.
    fn key_place(&self, k: &Term) -> Result<Place, Fault>
        ensures { IsUnless (fault_of_key k.now) (IsPlace self.now.keypos self.now.objects k.now) result }
    {
        if !fits(k) {
            return Err(Fault::Size);
        }
        Ok(find(self.objects.as_slice(), self.keypos, k))
    }

    // Where the key of a command's object stands, or why the object is refused.
    #[tactic(auto, using(crate::proofs::Steps::leaving))]
    fn object_place(&self, object: &Term) -> Result<Place, Fault>
        ensures { IsUnless (fault_of_object self.now.keypos object.now)
            (IsPlace self.now.keypos self.now.objects (key_of self.now.keypos object.now)) result }
    {
        let Some(k) = key(object, self.keypos) else {
            return Err(Fault::BadArg);
        };
        if !fits(object) {
            return Err(Fault::Size);
        }
        Ok(find(self.objects.as_slice(), self.keypos, k))
    }
}

// Where a key stands in a table, or would stand.
fn find(objects: &[Term], keypos: u32, k: &Term) -> Place
    requires { IsTable keypos objects.now }
    ensures { IsPlace keypos objects.now k.now result }
{
    match objects.binary_search_by(|object| key_order(object, keypos, k)) {
        Ok(at) => Place::At(at),
        Err(at) => Place::Before(at),
    }
}

// The objects of a table whose keys are greater than a key.
#[tactic(auto, using(crate::proofs::Places::place_range))]
fn behind<'a>(objects: &'a [Term], keypos: u32, k: &Term) -> &'a [Term]
    requires { IsTable keypos objects.now }
    ensures { result.now ≡ above keypos objects.now k.now }
{
    match find(objects, keypos, k) {
        Place::At(at) => {
            let (_, greater) = objects.split_at(at + 1);
            greater
        }
        Place::Before(at) => {
            let (_, greater) = objects.split_at(at);
            greater
        }
    }
}

// The first key of objects from a place on.
#[tactic(auto, using(crate::proofs::Walks::walking))]
fn key_from(alloc: Global, keypos: u32, objects: &[Term], at: usize) -> Result<Reply, AllocError>
    requires positive { 1 ≤ keypos }
    requires table { IsTable keypos objects.now }
    requires range { at ≤ length objects.now }
    ensures { IfOk result (λ reply. response_of reply ≡ first_key keypos (drop at objects.now)) }
{
    if at == objects.len() {
        return Ok(Reply::End);
    }
    let own = own_key(&objects[at], keypos);
    Ok(Reply::Value(copied(alloc, own)?))
}

// The last key of objects before a place.
#[tactic(auto, using(crate::proofs::Walks::walking))]
fn key_before(alloc: Global, keypos: u32, objects: &[Term], at: usize) -> Result<Reply, AllocError>
    requires positive { 1 ≤ keypos }
    requires table { IsTable keypos objects.now }
    requires range { at ≤ length objects.now }
    ensures { IfOk result (λ reply. response_of reply ≡ last_key keypos (take at objects.now)) }
{
    if at == 0 {
        return Ok(Reply::End);
    }
    let own = own_key(&objects[at - 1], keypos);
    Ok(Reply::Value(copied(alloc, own)?))
}

// Puts a copy of an object at a place. The copy is made before the list is changed; the place of another object needs no further memory.
fn put_copy(
    alloc: Global,
    objects: &mut Vec<Term>,
    place: Place,
    object: &Term,
) -> Result<(), AllocError>
    requires { IsInRange (length objects.old.items) place }
    ensures ok { OnOk result (objects.new.items ≡ placed objects.old.items place object.now) }
    ensures err { OnErr result (objects.new.items ≡ objects.old.items) }
{
    let copy = copied(alloc, object)?;
    match place {
        Place::At(at) => replace(objects, at, copy),
        Place::Before(at) => objects.insert(at, copy)?,
    }
    Ok(())
}

// Puts an object in the place of another one.
fn replace(objects: &mut Vec<Term>, at: usize, object: Term)
    requires { at < length objects.old.items }
    ensures { objects.new.items ≡ slice_set objects.old.items at object }
{
    let _old = mem::replace(&mut objects[at], object);
}

// Takes an object out, as a list of it alone. Room for the list is found before.
fn take_at(alloc: Global, objects: &mut Vec<Term>, at: usize) -> Result<Terms, AllocError>
    requires { at < length objects.old.items }
    ensures ok { IfOk result (λ terms. terms.items ≡ slice_index_or objects.old.items at Nil ∷ []) }
    ensures others { OnOk result (objects.new.items ≡ remove objects.old.items at) }
    ensures err { OnErr result (objects.new.items ≡ objects.old.items) }
{
    let mut terms = Terms::new(alloc);
    let Ok(()) = terms.reserve(1) else {
        return Err(AllocError);
    };
    let Ok(()) = terms.push(objects.remove(at)) else {
        unreachable!()
    };
    Ok(terms)
}

// The list of a copy of this term alone.
fn only(alloc: Global, term: &Term) -> Result<Terms, AllocError>
    ensures { IfOk result (λ terms. terms.items ≡ term.now ∷ []) }
{
    let mut terms = Terms::new(alloc);
    match terms.push(copied(alloc, term)?) {
        Ok(()) => Ok(terms),
        Err(_) => Err(AllocError),
    }
}
