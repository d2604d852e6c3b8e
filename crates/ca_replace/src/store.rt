//! A pass as a store.
ghost use Rattle.std.specs.Prelude.{◌≡◌, ◌+◌, ◌≤◌, None, length, min, pos, vec_len};
ghost use Rattle.ca_adapt.specs.declared.adapted.Adapted.TheVariants.{Stay as IsStay};
ghost use Rattle.ca_replace.specs.Bounded.{PinsOnce};
ghost use Rattle.ca_replace.specs.Called.{StaysStore};
ghost use Rattle.ca_replace.specs.Causes.{HasGivenBack, IsSparing};
ghost use Rattle.ca_replace.specs.Growing.{IsUntouched};
ghost use Rattle.ca_replace.specs.Resting.{IsResting, knows};
ghost use Rattle.ca_replace.specs.Seen.{store_of};
ghost use Rattle.ca_rows.specs.Passes.{sizes};

use crate::adapting::Last;
use crate::calls::{Order, call, empty_if_refused};
use crate::changing::ChangeCall;
use crate::giving::{give_back_kept, keep_few};
use crate::lasts::BelowCall;
use crate::looking::look_up;
use crate::opened::OpenRun;
use crate::puts::{PutCall, PutNewCall};
use crate::ranging::read_or_refuse;
use crate::reading::read;
use crate::refusing::outcome_by;
use crate::removing::{RemoveCall, RemoveIfCall};
use crate::running::found_next;
use crate::tree::Tree;
use crate::within::{AboveCall, RangeCall};
use ca_adapt::Adapted;
use ca_base::Keyed;
use ca_model::{Changed, Code, Edge, OrderedStore, Outcome};
use ca_node::{Front, Link, Spot, TreePass, adapted, front, learn, load_link, walk};
use ca_range::Sought;
use ca_rows::Reclaimed;
use std::alloc::AllocError;
use std::marker::Model;

/// A pass on a tree, as a store of the tree's map. Between two calls it isn't pinned, but where a run is open. Contracts see the tree's table, the pass, what
/// is kept of its last update, and the run.
///
/// No call takes memory: each finds its own room among the tree's rows. `get` is never refused, and loses no turn. A call that edits is refused where no row is
/// free (`Full`), where the base at the last level that must take a new key has as many objects as it may (`Deep`), and where its attempts lost as many turns to
/// other passes as the budget (`Busy`); each attempt asks a function that it was handed anew, of the object that it finds. A read of what is within edges is
/// refused where no row is free, where the budget is spent, and where the number of its pass's ranges is the last one (`Worn`). Behind each call but an open run
/// the pass keeps few rows, or there is a cause.
///
/// A call that may add a key splits each full base that it meets, and then looks anew; behind its update it splits the new base, where its statistic
/// says so. On a tree for one pass a call splits at most one base before its update and one behind it, so the tree grows by at most five linked rows,
/// two of them bases.
pub struct TreeStore<'t> {
    tree: &'t Tree,
    pass: TreePass,
    last: Last,
    // What `change` hands to a function, which writes the new object into it. It is kept, since a kilobyte would be cleared for each call's own.
    room: Code,
    // The run that is open, if one is: then the pass is pinned.
    run: Option<OpenRun>,
}

impl<'t> Model for TreeStore<'t> {
    ghost use Rattle.ca_replace.specs.Causes.{HasCause, IsSparing};
    ghost use Rattle.ca_replace.specs.Resting.{StoreAndRun};

    ghost Value = { StoreAndRun };

    ghost use Rattle.ca_replace.specs.StoreView.{view_of, IsStore};

    ghost view = { view_of };

    ghost invariant = { IsStore };
}

impl Drop for TreeStore<'_> {
    fn drop(self) {
        let Self {
            tree: _,
            pass: _,
            last: _,
            room: _,
            run: _,
        } = self;
    }
}

impl TreeStore<'_> {
    /// The store of a pass of this tree that holds no row and isn't pinned, as one that was just made.
    pub fn new(tree: &Tree, pass: TreePass) -> TreeStore<'_>
        requires { IsResting tree.now.space.table.shared.table_id (sizes tree.now.space) pass.number pass.tally pass.kept.rows pass.seat }
        ensures store { result.store ≡ store_of tree.now pass (record { statistic = pos 0; adapted = IsStay }) }
        ensures closed { result.run ≡ None }
    {
        let last = Last {
            statistic: 0,
            adapted: Adapted::Stay,
        };
        TreeStore {
            tree,
            pass,
            last,
            room: Code::new(),
            run: None,
        }
    }

    /// The pass, which may be made a store again.
    pub fn into_pass(self) -> TreePass
        requires closed { (knows self).run ≡ None }
        ensures same { (result.number ≡ self.entry.store.number) × (result.kept.rows ≡ self.entry.store.kept) × (result.seat ≡ self.entry.store.seat) }
        ensures tally { result.tally ≡ self.entry.store.tally }
        ensures resting { IsResting self.entry.store.table self.entry.store.z result.number result.tally result.kept.rows result.seat }
    {
        let Self {
            tree: _,
            pass,
            last: _,
            room: _,
            run: _,
        } = self;
        pass
    }

    /// How many rows the pass keeps that were unlinked, until no other pass can be reading them.
    pub fn kept(&self) -> u32
        ensures { result ≡ vec_len self.now.store.kept }
    {
        self.pass.kept()
    }

    /// Gives back the rows that the pass keeps, as far as no other pass can be reading them, and answers what came of it. Nothing else changes.
    pub fn give_back(&mut self) -> Reclaimed
        requires closed { (knows self.old).run ≡ None }
        ensures frame { StaysStore self.old.store self.new.store }
        ensures last { self.new.store.last ≡ self.old.store.last }
        ensures upper { self.new.store.seat.me.0.upper ≡ self.old.store.seat.me.0.upper }
        ensures same { knows self.new ≡ knows self.old }
        ensures given { HasGivenBack result self.old.store self.new.store }
    {
        give_back_kept(self.tree, &mut self.pass)
    }

    /// How many splits and how many joins the pass carried out, each up to the last number that 64 bits hold.
    pub fn adapted(&self) -> (u64, u64)
        ensures splits { result.0 ≡ min 18446744073709551615 self.now.store.seat.me.0.upper.splits }
        ensures joins { result.1 ≡ min 18446744073709551615 self.now.store.seat.me.0.upper.joins }
    {
        adapted(&self.pass)
    }

    /// The last update by this store: the statistic of its new base, and what was done about that base. Before the first one that is 0, and nothing.
    pub fn last_adapted(&self) -> (i64, Adapted)
        ensures { (result.0 ≡ self.now.store.last.statistic) × (result.1 ≡ self.now.store.last.adapted) }
    {
        (i64::from(self.last.statistic), self.last.adapted)
    }

    /// A copy of what the pass has seen of the tree's history.
    pub fn front(&mut self) -> Front
        ensures frame { StaysStore self.old.store self.new.store }
        ensures last { (self.new.store.last ≡ self.old.store.last) × IsUntouched self.old.store.seat.me.0.upper self.new.store.seat.me.0.upper }
        ensures pass { (self.new.store.kept ≡ self.old.store.kept) × (self.new.store.seat.me ≡ self.old.store.seat.me) }
        ensures run { self.new.run ≡ self.old.run }
        ensures table { result.half.seat.table_id ≡ self.old.store.table }
        ensures seen { result.half.seat.me.0.upper.seen ≡ self.old.store.seat.me.0.upper.seen }
    {
        front(&self.tree.space, &mut self.pass)
    }

    /// Takes a front of the same tree in: from then on the pass has seen what the pass had seen that gave it, and no later call of this
    /// pass has a place before that. One load of the root link ends the call: it tells that what was taken in is a beginning of the
    /// tree's history, for which the log is lawful.
    pub fn learn(&mut self, front: Front)
        requires closed { (knows self.old).run ≡ None }
        requires table { front.half.seat.table_id ≡ self.old.store.table }
        ensures frame { StaysStore self.old.store self.new.store }
        ensures last { (self.new.store.last ≡ self.old.store.last) × IsUntouched self.old.store.seat.me.0.upper self.new.store.seat.me.0.upper }
        ensures sparing { IsSparing self.old.store self.new.store }
        ensures closed { (knows self.new).run ≡ None }
        ensures log { self.new.store.seat.me.0.upper.log ≡ self.old.store.seat.me.0.upper.log }
        ensures counts { self.new.store.seat.me.0.upper.counts ≡ self.old.store.seat.me.0.upper.counts }
        ensures seen { length front.half.seat.me.0.upper.seen ≤ length self.new.store.seat.me.0.upper.seen }
        ensures bounded { PinsOnce self.old.store.seat.me self.new.store.seat.me }
        ensures loads { self.new.store.seat.me.0.upper.loads ≡ self.old.store.seat.me.0.upper.loads + 1 }
        ensures seen_before { length self.old.store.seat.me.0.upper.seen ≤ length self.new.store.seat.me.0.upper.seen }
    {
        learn(&self.tree.space, &mut self.pass, front);
        self.tree.space.pin(&mut self.pass);
        load_link(&self.tree.space, &mut self.pass, Link::Root);
        self.tree.space.unpin(&mut self.pass);
        keep_few(self.tree, &mut self.pass);
    }
}

impl OrderedStore for TreeStore<'_> {
    ghost knows = { knows };

    ghost use Rattle.ca_replace.specs.TreePromises.{tree_promises};

    ghost promises = { tree_promises };

    fn reserve(&mut self) -> Result<(), AllocError> {
        Ok(())
    }

    fn get(&mut self, key: &[u8], into: &mut Code, budget: u32) -> Outcome<bool> {
        let _budget = budget;
        let space = &self.tree.space;
        space.pin(&mut self.pass);
        let cursor = walk(space, &mut self.pass, Spot::At(key));
        let found = look_up(space, &mut self.pass, cursor, key, into);
        space.unpin(&mut self.pass);
        keep_few(self.tree, &mut self.pass);
        Outcome::Done(found)
    }

    fn put(&mut self, object: &[u8], key_at: usize, key_end: usize, budget: u32) -> Outcome<()> {
        let keyed = Keyed {
            object,
            key_at,
            key_end,
        };
        let what = &PutCall { keyed };
        let order = Order { what, budget };
        let (pass, last) = (&mut self.pass, &mut self.last);
        call(self.tree, pass, &order, &mut (), &mut (), last)
    }

    fn put_new(
        &mut self,
        object: &[u8],
        key_at: usize,
        key_end: usize,
        budget: u32,
    ) -> Outcome<bool> {
        let keyed = Keyed {
            object,
            key_at,
            key_end,
        };
        let what = &PutNewCall { keyed };
        let order = Order { what, budget };
        let (pass, last) = (&mut self.pass, &mut self.last);
        call(self.tree, pass, &order, &mut (), &mut (), last)
    }

    fn remove(&mut self, key: &[u8], old: &mut Code, budget: u32) -> Outcome<bool> {
        let what = &RemoveCall { key };
        let order = Order { what, budget };
        let (pass, last) = (&mut self.pass, &mut self.last);
        let outcome = call(self.tree, pass, &order, &mut *old, &mut (), last);
        empty_if_refused(&outcome, old);
        outcome
    }

    fn remove_if<F: Fn(&[u8]) -> bool>(
        &mut self,
        key: &[u8],
        f: &F,
        old: &mut Code,
        budget: u32,
    ) -> Outcome<Changed> {
        let what = &RemoveIfCall { key, f };
        let order = Order { what, budget };
        let (pass, last) = (&mut self.pass, &mut self.last);
        let outcome = call(self.tree, pass, &order, &mut *old, &mut (), last);
        empty_if_refused(&outcome, old);
        outcome
    }

    fn change<F: Fn(&[u8], &mut Code, &mut usize) -> bool>(
        &mut self,
        key: &[u8],
        f: &F,
        old: &mut Code,
        budget: u32,
    ) -> Outcome<Changed> {
        let what = &ChangeCall { key, f };
        let order = Order { what, budget };
        let (pass, last) = (&mut self.pass, &mut self.last);
        let outcome = call(self.tree, pass, &order, &mut *old, &mut self.room, last);
        empty_if_refused(&outcome, old);
        outcome
    }

    fn above(&mut self, lo: Edge<'_>, into: &mut Code, budget: u32) -> Outcome<bool> {
        let what = &AboveCall { lo };
        let order = Order { what, budget };
        let outcome = read(self.tree, &mut self.pass, &order, &mut *into);
        empty_if_refused(&outcome, into);
        outcome
    }

    fn below(&mut self, hi: Edge<'_>, into: &mut Code, budget: u32) -> Outcome<bool> {
        let what = &BelowCall { hi };
        let order = Order { what, budget };
        let outcome = read(self.tree, &mut self.pass, &order, &mut *into);
        empty_if_refused(&outcome, into);
        outcome
    }

    fn range<F: Fn(&[u8]) -> bool>(
        &mut self,
        lo: Edge<'_>,
        hi: Edge<'_>,
        want: u32,
        counts: &F,
        budget: u32,
    ) -> Outcome<bool> {
        let sought = Sought {
            lo,
            hi,
            want,
            counts,
        };
        let what = &RangeCall { sought };
        let order = Order { what, budget };
        let mut run = OpenRun::none();
        match read_or_refuse(self.tree, &mut self.pass, &order, &mut run) {
            Ok(whole) => {
                self.run = Some(run);
                Outcome::Done(whole)
            }
            Err(why) => outcome_by(why),
        }
    }

    fn found(&mut self, into: &mut Code) -> bool {
        let Some(run) = &mut self.run else {
            into.clear();
            return false;
        };
        found_next(&self.tree.space, &mut self.pass, run, into)
    }

    fn close_run(&mut self) {
        let Some(_) = self.run else {
            return;
        };
        self.run = None;
        self.tree.space.unpin(&mut self.pass);
        keep_few(self.tree, &mut self.pass);
    }
}
