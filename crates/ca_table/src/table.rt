//! A table over a store.
ghost use Rattle.std.specs.Prelude.{◌≡◌, ◌↔◌, ◌≤◌, None, Some, false, length, map, slice_range, IfOk, IfErr, IsOk, IsTrue, OnOk, OnErr};
ghost use Rattle.ca_term.specs.Add.{addition_of};
ghost use Rattle.ca_term.specs.Object.{fits};
ghost use Rattle.ca_term.specs.Tree.{Tree};
ghost use Rattle.ca_term.specs.Updates.{is_open};
ghost use Rattle.ca_order.specs.Patches.{IsElementCode};
ghost use Rattle.ca_ets.specs.declared.command.Cmd.TheVariants.{Insert, InsertNew, Lookup, Member, Delete, Take, UpdateCounter, UpdateElement, First, Last, Next, Prev, Select};
ghost use Rattle.ca_ets.specs.Command.{IsContinuation, continuation_of};
ghost use Rattle.ca_ets.specs.Nature.{EditsBy};
ghost use Rattle.ca_model.specs.Known.{Known, Meets, Stays};
ghost use Rattle.ca_model.specs.Edges.{bound_of, IsProperBound};
ghost use Rattle.ca_model.specs.Event.{Write, WriteNew};
ghost use Rattle.ca_model.specs.Answer.{FoundAbove, FoundBelow, Got, Removed, IsDone, IsNeverDeep};
ghost use Rattle.ca_model.specs.StoreMap.{IsPair};
ghost use Rattle.ca_ets.specs.Step.{fault_of_object, nature_of};
ghost use Rattle.ca_plan.specs.Plan.{shared_key};
ghost use Rattle.ca_table.specs.Codes.{HasObjectCode};
ghost use Rattle.ca_table.specs.Collected.{AreWithin, HasReadToStop, IsStopped};
ghost use Rattle.ca_ets.specs.Unless.{IsUnless};
ghost use Rattle.ca_ets.specs.Update.{IsFilledList};
ghost use Rattle.ca_table.specs.ComesTo.{ComesTo, ComesToFrom, EditsNothing, IsEmptyUpdate};
ghost use Rattle.ca_table.specs.Made.{HasDeclined, HasEdited, HasMade, HasRead, HasReadKeys, HasRefusedRead};
ghost use Rattle.ca_table.specs.Renewed.{Updated, by_element, by_operations};
ghost use Rattle.ca_table.specs.Refusals.{IsRefusal, IsSame, RemovedSame};
ghost use Rattle.ca_table.specs.ResultsView.{results_of};

use crate::codes::{KeyRange, asked_element, key_code, key_of, object_code, only};
use crate::follower::{Follower, Unfollowed};
use crate::outcome::{ONE_LOST, Played, Stop, done};
use crate::reply::Room;
use crate::run::{Collected, results_within};
use crate::update::{count, fault_of_counts, fault_of_element, fault_of_long_element, replace};
use crate::upkeep::Upkeep;
use ca_ets::{Cmd, Cont, Fault, Operations, Reply};
use ca_model::{Changed, Code, Edge, OrderedStore, Outcome};
use ca_order::encode;
use ca_spec::Spec;
use ca_term::{Add, Term, Terms};
use std::alloc::{AllocError, Global};
use std::marker::{Model, PhantomData};

/// An `ordered_set` over a store of bytes. Contracts see the store: what is known of it, and what it promises of the calls that a command made. Of the calls
/// that ask a function they tell what the follower says.
#[derive(Drop)]
pub struct Table<S: OrderedStore + Drop, W: Follower<S> = Unfollowed> {
    store: S,
    keypos: u32,
    follower: PhantomData<W>,
    // the specification of the last batch, compiled
    recent: Option<Spec>,
}

impl<S: OrderedStore + Drop, W: Follower<S>> Model for Table<S, W> {
    ghost use Rattle.std.specs.Prelude.{◌≡◌, ◌≤◌, None};

    ghost Value = { S };

    ghost view = { λ t. t.store };

    ghost invariant = { λ t. (t.keypos ≡ (S.knows t.store).keypos) × (1 ≤ t.keypos) × ((S.knows t.store).run ≡ None) };
}

impl<S: OrderedStore + Drop> Table<S> {
    /// The table of a store whose `keypos` this is, counted from 1, and which nobody follows. The store has no run open.
    pub fn new(store: S, keypos: u32) -> Table<S>
        requires keypos { keypos ≡ (S.knows store).keypos }
        requires positive { 1 ≤ keypos }
        requires closed { (S.knows store).run ≡ None }
        ensures { result ≡ store }
    {
        Table::followed(store, keypos)
    }
}

impl<S: OrderedStore + Drop, W: Follower<S>> Table<S, W> {
    /// The table of a store whose `keypos` this is, counted from 1, and which `W` follows. The store has no run open.
    pub fn followed(store: S, keypos: u32) -> Table<S, W>
        requires keypos { keypos ≡ (S.knows store).keypos }
        requires positive { 1 ≤ keypos }
        requires closed { (S.knows store).run ≡ None }
        ensures { result ≡ store }
    {
        Table {
            store,
            keypos,
            follower: PhantomData,
            recent: None,
        }
    }

    /// The store. It has no run open.
    pub fn into_store(self) -> S
        ensures store { result ≡ self }
        ensures closed { (S.knows result).run ≡ None }
    {
        self.store
    }

    /// Whether the store is held up by others, as its follower tells.
    pub fn is_held_up(&self) -> bool
        ensures { IsTrue result ↔ W.held_up self.now }
    {
        W::is_held_up(&self.store)
    }

    /// Does this to the store, and answers whether doing it again may come to more.
    pub fn tend<U: Upkeep<S>>(&mut self, upkeep: &U) -> bool
        ensures { S.knows self.new ≡ S.knows self.old }
    {
        upkeep.tend(&mut self.store)
    }

    /// The call that a command names, of a client whose batches stand where `cont` tells. A reply is that of the command's step from there on,
    /// and `cont` tells then where they stand behind it; where there is no reply it stays.
    #[tactic(auto, using(crate::proofs::Sure::unmoved))]
    pub fn apply(&mut self, alloc: Global, cmd: &Cmd, cont: &mut Cont, budget: u32) -> Played
        requires budget { 1 ≤ budget }
        requires continuation { IsContinuation (continuation_of cont.old) }
        ensures comes { ComesToFrom (S.knows self.old) (S.knows self.new) budget cmd.now (continuation_of cont.old) (continuation_of cont.new) result }
        ensures made { HasMade S.knows S.promises W.asked cmd.now self.old self.new result }
        ensures continuation { IsContinuation (continuation_of cont.new) }
        ensures stays { (s key : Tree) → cmd.now ≡ Select s → shared_key (S.knows self.old).keypos s ≡ Some key → fits key ≡ false
            → Stays (S.knows self.old) (S.knows self.new) }
        ensures read { IsEmptyUpdate (S.knows self.old).keypos (nature_of cmd.now).asks → EditsNothing (S.knows self.old) (S.knows self.new) }
        ensures done { IsEmptyUpdate (S.knows self.old).keypos (nature_of cmd.now).asks → IfOk result (λ outcome. IsDone outcome) }
    {
        match cmd {
            Cmd::Insert(object) => self.insert(object, budget),
            Cmd::InsertNew(object) => self.insert_new(object, budget),
            Cmd::Lookup(key) => self.lookup(alloc, key, budget),
            Cmd::Member(key) => self.member(key, budget),
            Cmd::Delete(key) => self.delete(key, budget),
            Cmd::Take(key) => self.take(alloc, key, budget),
            Cmd::UpdateCounter(key, op) => self.update_counter(alloc, key, op, budget),
            Cmd::UpdateElement(key, op) => self.update_element(key, op, budget),
            Cmd::First => self.first(alloc, budget),
            Cmd::Last => self.last(alloc, budget),
            Cmd::Next(key) => self.next(alloc, key, budget),
            Cmd::Prev(key) => self.prev(alloc, key, budget),
            Cmd::Select(spec) => self.select(alloc, spec, budget),
            Cmd::SelectRange(lo, hi, spec) => self.select_range(alloc, lo, hi, spec, budget),
            Cmd::Batch(spec, limit) => self.batch(alloc, spec, limit, cont, budget),
            Cmd::More => self.more(alloc, cont, budget),
        }
    }

    /// `insert`: it replaces the object of an equal key. `Err` where the store found no memory for a new key.
    pub fn insert(&mut self, object: &Term, budget: u32) -> Played
        requires { 1 ≤ budget }
        ensures comes { ComesTo (S.knows self.old) (S.knows self.new) budget (Insert object.now) result }
        ensures made { HasMade S.knows S.promises W.asked (Insert object.now) self.old self.new result }
    {
        let mut code = Code::new();
        let key = match self.object_code(object, &mut code) {
            Ok(key) => key,
            Err(fault) => return Ok(Outcome::Done(Reply::Error(fault))),
        };
        let Ok(()) = self.reserve() else {
            return Err(AllocError);
        };
        match self.put(&code, key, budget) {
            Ok(()) => return Ok(Outcome::Done(Reply::Truth(true))),
            Err(refusal) => return Ok(refusal),
        }
    }

    /// `insert_new`: it inserts where no object has the key. `Err` where the store found no memory for a new key.
    pub fn insert_new(&mut self, object: &Term, budget: u32) -> Played
        requires { 1 ≤ budget }
        ensures comes { ComesTo (S.knows self.old) (S.knows self.new) budget (InsertNew object.now) result }
        ensures made { HasMade S.knows S.promises W.asked (InsertNew object.now) self.old self.new result }
    {
        let mut code = Code::new();
        let key = match self.object_code(object, &mut code) {
            Ok(key) => key,
            Err(fault) => return Ok(Outcome::Done(Reply::Error(fault))),
        };
        let Ok(()) = self.reserve() else {
            return Err(AllocError);
        };
        match self.put_new(&code, key, budget) {
            Ok(new) => return Ok(Outcome::Done(Reply::Truth(new))),
            Err(refusal) => return Ok(refusal),
        }
    }

    /// `lookup`: the list of the key's object, or the empty list. It is never refused; `Err` where memory for the list wasn't found.
    pub fn lookup(&mut self, alloc: Global, key: &Term, budget: u32) -> Played
        requires { 1 ≤ budget }
        ensures comes { ComesTo (S.knows self.old) (S.knows self.new) budget (Lookup key.now) result }
        ensures made { HasMade S.knows S.promises W.asked (Lookup key.now) self.old self.new result }
        ensures done { IfOk result (λ outcome. IsDone outcome) }
    {
        let mut code = Code::new();
        if let Err(fault) = key_code(key, &mut code) {
            return Ok(Outcome::Done(Reply::Error(fault)));
        }
        let mut object = Code::new();
        if !self.get(&code, &mut object, budget) {
            return Ok(Outcome::Done(Reply::List(Terms::new(alloc))));
        }
        let Ok(list) = only(alloc, &object) else {
            return Err(AllocError);
        };
        Ok(Outcome::Done(Reply::Coded(list)))
    }

    /// `member`: whether an object has the key. It is never refused, and takes no memory.
    pub fn member(&mut self, key: &Term, budget: u32) -> Played
        requires { 1 ≤ budget }
        ensures comes { ComesTo (S.knows self.old) (S.knows self.new) budget (Member key.now) result }
        ensures made { HasMade S.knows S.promises W.asked (Member key.now) self.old self.new result }
        ensures done { IfOk result (λ outcome. IsDone outcome) }
        ensures ok { IsOk result }
    {
        let mut code = Code::new();
        if let Err(fault) = key_code(key, &mut code) {
            return Ok(Outcome::Done(Reply::Error(fault)));
        }
        let found = self.get(&code, &mut Code::new(), budget);
        Ok(Outcome::Done(Reply::Truth(found)))
    }

    /// `delete`: no object has the key behind it. It takes no memory.
    pub fn delete(&mut self, key: &Term, budget: u32) -> Played
        requires { 1 ≤ budget }
        ensures comes { ComesTo (S.knows self.old) (S.knows self.new) budget (Delete key.now) result }
        ensures made { HasMade S.knows S.promises W.asked (Delete key.now) self.old self.new result }
        ensures ok { IsOk result }
    {
        let mut code = Code::new();
        if let Err(fault) = key_code(key, &mut code) {
            return Ok(Outcome::Done(Reply::Error(fault)));
        }
        match self.remove(&code, &mut Code::new(), budget) {
            Ok(_) => return Ok(Outcome::Done(Reply::Truth(true))),
            Err(refusal) => return Ok(refusal),
        }
    }

    /// `take`: the list of the key's object, which is removed, or the empty list. The list is made before the object is removed, which
    /// goes only as long as the object is the one in the list: where another one was put in between, the answer is `Busy` with one lost
    /// turn. `Err` where memory for the list wasn't found; then the object stays.
    pub fn take(&mut self, alloc: Global, key: &Term, budget: u32) -> Played
        requires { 1 ≤ budget }
        ensures comes { ComesTo (S.knows self.old) (S.knows self.new) budget (Take key.now) result }
        ensures made { HasMade S.knows S.promises W.asked (Take key.now) self.old self.new result }
    {
        let mut code = Code::new();
        if let Err(fault) = key_code(key, &mut code) {
            return Ok(Outcome::Done(Reply::Error(fault)));
        }
        let mut object = Code::new();
        if !self.get(&code, &mut object, budget) {
            return Ok(Outcome::Done(Reply::List(Terms::new(alloc))));
        }
        let Ok(list) = only(alloc, &object) else {
            return Err(AllocError);
        };
        match self.remove_same(&code, &object, budget) {
            Ok(Changed::Put) => return Ok(Outcome::Done(Reply::Coded(list))),
            Ok(Changed::Absent) => return Ok(Outcome::Done(Reply::List(Terms::new(alloc)))),
            Ok(Changed::Kept) => return Ok(Outcome::Busy(ONE_LOST)),
            Err(refusal) => return Ok(refusal),
        }
    }

    /// `update_counter`: operations on counters of the key's object, all or none, by its code. The reply's list is made before the update, and
    /// a list of no operations only reads. `Err` where memory for a list of operations or for the reply's wasn't found; then nothing was edited.
    pub fn update_counter(&mut self, alloc: Global, key: &Term, op: &Term, budget: u32) -> Played
        requires { 1 ≤ budget }
        ensures comes { ComesTo (S.knows self.old) (S.knows self.new) budget (UpdateCounter key.now op.now) result }
        ensures made { HasMade S.knows S.promises W.asked (UpdateCounter key.now op.now) self.old self.new result }
        ensures read { IsEmptyUpdate (S.knows self.old).keypos (EditsBy op.now) → EditsNothing (S.knows self.old) (S.knows self.new) }
        ensures done { IsEmptyUpdate (S.knows self.old).keypos (EditsBy op.now) → IfOk result (λ outcome. IsDone outcome) }
        ensures lack { OnErr result (IsFilledList op.now) }
    {
        let keypos = self.keypos();
        let Ok(asked) = Operations::of(alloc, keypos, op) else {
            return Err(AllocError);
        };
        let Some(operations) = asked else {
            return Ok(Outcome::Done(Reply::Error(Fault::BadArg)));
        };
        let mut code = Code::new();
        if let Err(fault) = key_code(key, &mut code) {
            return Ok(Outcome::Done(Reply::Error(fault)));
        }
        let adds = operations.as_slice();
        if adds.is_empty() {
            if self.get(&code, &mut Code::new(), budget) {
                return Ok(Outcome::Done(Reply::List(Terms::new(alloc))));
            }
            return Ok(Outcome::Done(Reply::Error(Fault::BadArg)));
        }
        let Ok(room) = Room::new(alloc, &operations) else {
            return Err(AllocError);
        };
        let mut object = Code::new();
        match self.count(&code, adds, &mut object, budget) {
            Ok(Changed::Put) => return Ok(Outcome::Done(room.reply(&object, keypos, &operations))),
            Ok(Changed::Kept) => {
                let fault = fault_of_counts(&object, keypos, adds);
                return Ok(Outcome::Done(Reply::Error(fault)));
            }
            Ok(Changed::Absent) => return Ok(Outcome::Done(Reply::Error(Fault::BadArg))),
            Err(refusal) => return Ok(refusal),
        }
    }

    /// `update_element`: another element in the key's object, by its code. It takes no memory.
    pub fn update_element(&mut self, key: &Term, op: &Term, budget: u32) -> Played
        requires { 1 ≤ budget }
        ensures comes { ComesTo (S.knows self.old) (S.knows self.new) budget (UpdateElement key.now op.now) result }
        ensures made { HasMade S.knows S.promises W.asked (UpdateElement key.now op.now) self.old self.new result }
        ensures ok { IsOk result }
    {
        let keypos = self.keypos();
        let Some((pos, value)) = asked_element(keypos, op) else {
            return Ok(Outcome::Done(Reply::Error(Fault::BadArg)));
        };
        let mut code = Code::new();
        if let Err(fault) = key_code(key, &mut code) {
            return Ok(Outcome::Done(Reply::Error(fault)));
        }
        let mut object = Code::new();
        let mut element = Code::new();
        let Ok(()) = encode(value, &mut element) else {
            if self.get(&code, &mut object, budget) {
                return Ok(Outcome::Done(Reply::Error(fault_of_long_element(&object, pos))));
            }
            return Ok(Outcome::Done(Reply::Truth(false)));
        };
        match self.replace(&code, pos, &element, &mut object, budget) {
            Ok(Changed::Put) => return Ok(Outcome::Done(Reply::Truth(true))),
            Ok(Changed::Kept) => {
                let fault = fault_of_element(&object, keypos, pos, &element);
                return Ok(Outcome::Done(Reply::Error(fault)));
            }
            Ok(Changed::Absent) => return Ok(Outcome::Done(Reply::Truth(false))),
            Err(refusal) => return Ok(refusal),
        }
    }

    /// `first`: the least key of the table, or its end. `Err` where memory for the key wasn't found.
    pub fn first(&mut self, alloc: Global, budget: u32) -> Played
        requires { 1 ≤ budget }
        ensures comes { ComesTo (S.knows self.old) (S.knows self.new) budget First result }
        ensures made { HasMade S.knows S.promises W.asked First self.old self.new result }
    {
        let keypos = self.keypos();
        let mut object = Code::new();
        match self.above(Edge::Open, &mut object, budget) {
            Ok(true) => {
                let Ok(found) = key_of(alloc, &object, keypos) else {
                    return Err(AllocError);
                };
                return Ok(Outcome::Done(Reply::Value(found)));
            }
            Ok(false) => return Ok(Outcome::Done(Reply::End)),
            Err(refusal) => return Ok(refusal),
        }
    }

    /// `last`: the greatest key of the table, or its end. `Err` where memory for the key wasn't found.
    pub fn last(&mut self, alloc: Global, budget: u32) -> Played
        requires { 1 ≤ budget }
        ensures comes { ComesTo (S.knows self.old) (S.knows self.new) budget Last result }
        ensures made { HasMade S.knows S.promises W.asked Last self.old self.new result }
    {
        let keypos = self.keypos();
        let mut object = Code::new();
        match self.below(Edge::Open, &mut object, budget) {
            Ok(true) => {
                let Ok(found) = key_of(alloc, &object, keypos) else {
                    return Err(AllocError);
                };
                return Ok(Outcome::Done(Reply::Value(found)));
            }
            Ok(false) => return Ok(Outcome::Done(Reply::End)),
            Err(refusal) => return Ok(refusal),
        }
    }

    /// `next`: the least key above this one, which need not be in the table, or the table's end. `Err` where memory for the key wasn't found.
    pub fn next(&mut self, alloc: Global, key: &Term, budget: u32) -> Played
        requires { 1 ≤ budget }
        ensures comes { ComesTo (S.knows self.old) (S.knows self.new) budget (Next key.now) result }
        ensures made { HasMade S.knows S.promises W.asked (Next key.now) self.old self.new result }
    {
        let keypos = self.keypos();
        let mut code = Code::new();
        if let Err(fault) = key_code(key, &mut code) {
            return Ok(Outcome::Done(Reply::Error(fault)));
        }
        let mut object = Code::new();
        match self.above(Edge::Past(code.as_slice()), &mut object, budget) {
            Ok(true) => {
                let Ok(found) = key_of(alloc, &object, keypos) else {
                    return Err(AllocError);
                };
                return Ok(Outcome::Done(Reply::Value(found)));
            }
            Ok(false) => return Ok(Outcome::Done(Reply::End)),
            Err(refusal) => return Ok(refusal),
        }
    }

    /// `prev`: the greatest key below this one, which need not be in the table, or the table's end. `Err` where memory for the key wasn't
    /// found.
    pub fn prev(&mut self, alloc: Global, key: &Term, budget: u32) -> Played
        requires { 1 ≤ budget }
        ensures comes { ComesTo (S.knows self.old) (S.knows self.new) budget (Prev key.now) result }
        ensures made { HasMade S.knows S.promises W.asked (Prev key.now) self.old self.new result }
    {
        let keypos = self.keypos();
        let mut code = Code::new();
        if let Err(fault) = key_code(key, &mut code) {
            return Ok(Outcome::Done(Reply::Error(fault)));
        }
        let mut object = Code::new();
        match self.below(Edge::Past(code.as_slice()), &mut object, budget) {
            Ok(true) => {
                let Ok(found) = key_of(alloc, &object, keypos) else {
                    return Err(AllocError);
                };
                return Ok(Outcome::Done(Reply::Value(found)));
            }
            Ok(false) => return Ok(Outcome::Done(Reply::End)),
            Err(refusal) => return Ok(refusal),
        }
    }
}

// The table's `keypos`, and objects by it.
impl<S: OrderedStore + Drop, W: Follower<S>> Table<S, W> {
    // Which element of an object is its key, counted from 1.
    pub(crate) fn keypos(&self) -> u32
        ensures value { result ≡ (S.knows self.now).keypos }
        ensures positive { 1 ≤ (S.knows self.now).keypos }
    {
        self.keypos
    }

    // Writes the code of an object into `into`: where its key stands in it, or why the object is refused.
    fn object_code(&self, object: &Term, into: &mut Code) -> Result<KeyRange, Fault>
        ensures code { IsUnless (fault_of_object (S.knows self.now).keypos object.now)
            (λ key. HasObjectCode (S.knows self.now).keypos object.now into.new.items key.start key.end) result }
        ensures positive { 1 ≤ (S.knows self.now).keypos }
    {
        object_code(object, self.keypos, into)
    }
}

// The calls of the store, with what is known of it in the table's words.
impl<S: OrderedStore + Drop, W: Follower<S>> Table<S, W> {
    // Makes room for a new key.
    fn reserve(&mut self) -> Result<(), AllocError>
        ensures room { OnOk result (1 ≤ (S.knows self.new).spare) }
        ensures lack { OnErr result ((S.knows self.old).spare ≡ 0) }
        ensures stays { Stays (S.knows self.old) (S.knows self.new) }
        ensures promised { S.promises.reserve self.old self.new }
        ensures read { HasRead S.promises self.old self.new }
    {
        self.store.reserve()
    }

    // Whether an object has the key; then `into` is the object.
    pub(crate) fn get(&mut self, key: &Code, into: &mut Code, budget: u32) -> bool
        requires budget { 1 ≤ budget }
        requires key { 1 ≤ length key.now.items }
        ensures by_key { HasReadKeys S.promises self.old self.new }
        ensures read { HasRead S.promises self.old self.new }
        ensures got { Got (S.knows self.old) (S.knows self.new) key.now.items result into.new.items }
    {
        let Outcome::Done(found) = self.store.get(key.as_slice(), into, budget) else {
            unreachable!()
        };
        found
    }

    // Puts the object, in the place of its key's object where there is one.
    fn put(&mut self, object: &Code, key: KeyRange, budget: u32) -> Result<(), Outcome<Reply>>
        requires budget { 1 ≤ budget }
        requires room { 1 ≤ (S.knows self.old).spare }
        requires place { (key.start ≤ key.end) × (key.end ≤ length object.now.items) }
        requires pair { IsPair (S.knows self.old).keypos (slice_range object.now.items key.start key.end, object.now.items) }
        ensures put { OnOk result (Meets (S.knows self.old) (S.knows self.new) (Write (slice_range object.now.items key.start key.end) object.now.items)) }
        ensures refused { IfErr result (λ refusal. IsRefusal (S.knows self.old) (S.knows self.new) budget refusal) }
        ensures edited { IfOk result (λ _.
            HasEdited S.promises W.asked (Some (slice_range object.now.items key.start key.end)) None self.old self.new) }
        ensures declined { IfErr result (λ answer.
            HasDeclined S.promises W.asked (Some (slice_range object.now.items key.start key.end)) answer self.old self.new) }
    {
        let KeyRange { start, end } = key;
        done(self.store.put(object.as_slice(), start, end, budget))
    }

    // Puts the object where no object has its key, and answers whether it did.
    fn put_new(&mut self, object: &Code, key: KeyRange, budget: u32) -> Result<bool, Outcome<Reply>>
        requires budget { 1 ≤ budget }
        requires room { 1 ≤ (S.knows self.old).spare }
        requires place { (key.start ≤ key.end) × (key.end ≤ length object.now.items) }
        requires pair { IsPair (S.knows self.old).keypos (slice_range object.now.items key.start key.end, object.now.items) }
        ensures put { IfOk result (λ new.
            Meets (S.knows self.old) (S.knows self.new) (WriteNew (slice_range object.now.items key.start key.end) object.now.items new)) }
        ensures refused { IfErr result (λ refusal. IsRefusal (S.knows self.old) (S.knows self.new) budget refusal) }
        ensures edited { IfOk result (λ _.
            HasEdited S.promises W.asked (Some (slice_range object.now.items key.start key.end)) None self.old self.new) }
        ensures declined { IfErr result (λ answer.
            HasDeclined S.promises W.asked (Some (slice_range object.now.items key.start key.end)) answer self.old self.new) }
    {
        let KeyRange { start, end } = key;
        done(self.store.put_new(object.as_slice(), start, end, budget))
    }

    // Removes the key's object, and answers whether there was one; then `old` is the object.
    fn remove(&mut self, key: &Code, old: &mut Code, budget: u32) -> Result<bool, Outcome<Reply>>
        requires budget { 1 ≤ budget }
        requires key { 1 ≤ length key.now.items }
        ensures removed { IfOk result (λ was. Removed (S.knows self.old) (S.knows self.new) key.now.items was old.new.items) }
        ensures refused { IfErr result (λ refusal. IsRefusal (S.knows self.old) (S.knows self.new) budget refusal) }
        ensures edited { IfOk result (λ _. HasEdited S.promises W.asked None None self.old self.new) }
        ensures declined { IfErr result (λ answer. HasDeclined S.promises W.asked None answer self.old self.new) }
        ensures never_deep { IfErr result (λ refusal. IsNeverDeep refusal) }
    {
        done(self.store.remove(key.as_slice(), old, budget))
    }

    // Removes the key's object where it is this one.
    fn remove_same(
        &mut self,
        key: &Code,
        object: &Code,
        budget: u32,
    ) -> Result<Changed, Outcome<Reply>>
        requires budget { 1 ≤ budget }
        requires key { 1 ≤ length key.now.items }
        ensures removed { IfOk result (λ changed. RemovedSame (S.knows self.old) (S.knows self.new) key.now.items object.now.items changed) }
        ensures refused { IfErr result (λ refusal. IsRefusal (S.knows self.old) (S.knows self.new) budget refusal) }
        ensures edited { IfOk result (λ _. HasEdited S.promises W.asked None None self.old self.new) }
        ensures declined { IfErr result (λ answer. HasDeclined S.promises W.asked None answer self.old self.new) }
        ensures never_deep { IfErr result (λ refusal. IsNeverDeep refusal) }
    {
        let read = object.as_slice();
        let same = |bytes: &[u8]| -> bool
            ensures { IsSame result bytes.now read.entry.now }
        { bytes == read };
        let mut old = Code::new();
        done(W::remove_if(&mut self.store, key.as_slice(), &same, &mut old, budget))
    }

    // Whether an object is within the lower edge; then `into` is the first one.
    fn above(&mut self, lo: Edge<'_>, into: &mut Code, budget: u32) -> Result<bool, Outcome<Reply>>
        requires budget { 1 ≤ budget }
        requires edge { IsProperBound (bound_of lo) }
        ensures read { IfOk result (λ _. HasRead S.promises self.old self.new) }
        ensures declined { IfErr result (λ answer. HasRefusedRead S.promises answer self.old self.new) }
        ensures found { IfOk result (λ found. FoundAbove (S.knows self.old) (S.knows self.new) (bound_of lo.entry) found into.new.items) }
        ensures refused { IfErr result (λ refusal. IsRefusal (S.knows self.old) (S.knows self.new) budget refusal) }
        ensures never_deep { IfErr result (λ refusal. IsNeverDeep refusal) }
    {
        done(self.store.above(lo, into, budget))
    }

    // Whether an object is within the upper edge; then `into` is the last one.
    fn below(&mut self, hi: Edge<'_>, into: &mut Code, budget: u32) -> Result<bool, Outcome<Reply>>
        requires budget { 1 ≤ budget }
        requires edge { IsProperBound (bound_of hi) }
        ensures read { IfOk result (λ _. HasRead S.promises self.old self.new) }
        ensures declined { IfErr result (λ answer. HasRefusedRead S.promises answer self.old self.new) }
        ensures found { IfOk result (λ found. FoundBelow (S.knows self.old) (S.knows self.new) (bound_of hi.entry) found into.new.items) }
        ensures refused { IfErr result (λ refusal. IsRefusal (S.knows self.old) (S.knows self.new) budget refusal) }
        ensures never_deep { IfErr result (λ refusal. IsNeverDeep refusal) }
    {
        done(self.store.below(hi, into, budget))
    }

    // Carries out operations on counters of the key's object, if it is there; then `object` is the one before them.
    fn count(
        &mut self,
        key: &Code,
        adds: &[Add],
        object: &mut Code,
        budget: u32,
    ) -> Result<Changed, Outcome<Reply>>
        requires budget { 1 ≤ budget }
        requires key { 1 ≤ length key.now.items }
        ensures updated { IfOk result (λ changed. Updated (S.knows self.old) (S.knows self.new) key.now.items
            (by_operations (S.knows self.old).keypos (map addition_of adds.now)) changed object.new.items) }
        ensures refused { IfErr result (λ refusal. IsRefusal (S.knows self.old) (S.knows self.new) budget refusal) }
        ensures edited { IfOk result (λ _. HasEdited S.promises W.asked None None self.old self.new) }
        ensures declined { IfErr result (λ answer. HasDeclined S.promises W.asked None answer self.old self.new) }
        ensures never_deep { IfErr result (λ refusal. IsNeverDeep refusal) }
    {
        done(count::<S, W>(&mut self.store, key, self.keypos, adds, object, budget))
    }

    // Puts another element, of this code, into the key's object, if it is there; then `object` is the one before it.
    fn replace(
        &mut self,
        key: &Code,
        pos: i64,
        value: &Code,
        object: &mut Code,
        budget: u32,
    ) -> Result<Changed, Outcome<Reply>>
        requires budget { 1 ≤ budget }
        requires key { 1 ≤ length key.now.items }
        requires pos { IsTrue (is_open (S.knows self.old).keypos pos) }
        requires value { (v : Tree) × IsElementCode v value.now.items }
        ensures updated { (v : Tree) → IsElementCode v value.now.items → IfOk result (λ changed.
            Updated (S.knows self.old) (S.knows self.new) key.now.items (by_element pos v) changed object.new.items) }
        ensures refused { IfErr result (λ refusal. IsRefusal (S.knows self.old) (S.knows self.new) budget refusal) }
        ensures edited { IfOk result (λ _. HasEdited S.promises W.asked None None self.old self.new) }
        ensures declined { IfErr result (λ answer. HasDeclined S.promises W.asked None answer self.old self.new) }
        ensures never_deep { IfErr result (λ refusal. IsNeverDeep refusal) }
    {
        done(replace::<S, W>(
            &mut self.store,
            key,
            self.keypos,
            pos,
            value,
            object,
            budget,
        ))
    }

    // Takes the specification of the last batch out.
    pub(crate) fn take_recent(&mut self) -> Option<Spec>
        ensures { self.new ≡ self.old }
    {
        self.recent.take()
    }

    // Keeps the specification of a batch.
    pub(crate) fn keep_recent(&mut self, spec: Spec)
        ensures { self.new ≡ self.old }
    {
        self.recent = Some(spec);
    }

    // The results of the objects within two edges at one state, as many as are wanted, or all.
    pub(crate) fn within(
        &mut self,
        alloc: Global,
        spec: &Spec,
        lo: Edge<'_>,
        hi: Edge<'_>,
        limit: Option<u64>,
        budget: u32,
    ) -> Result<Collected, Stop>
        requires budget { 1 ≤ budget }
        requires lower_edge { IsProperBound (bound_of lo) }
        requires upper_edge { IsProperBound (bound_of hi) }
        ensures read { IfOk result (λ _. HasRead S.promises self.old self.new) }
        ensures halted { IfErr result (λ stop. HasReadToStop S.promises self.old self.new stop) }
        ensures within { IfOk result (λ c.
            AreWithin (S.knows self.old) (S.knows self.new) (bound_of lo.entry) (bound_of hi.entry) spec.now limit (results_of c.results) c.last) }
        ensures stopped { IfErr result (λ stop. IsStopped (S.knows self.old) (S.knows self.new) budget stop) }
        ensures positive { 1 ≤ (S.knows self.old).keypos }
    {
        results_within(&mut self.store, alloc, spec, lo, hi, limit, budget)
    }
}
