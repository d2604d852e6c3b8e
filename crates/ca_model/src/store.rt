//! Stores of a map of bytes.
ghost use Rattle.std.specs.Prelude.{◌≡◌, ℕ, ◌≤◌, [], List, None, length, OnOk, OnErr, slice_range};
ghost use Rattle.ca_term.specs.declared.bounds.TheConstants.{MOST_CODE_BYTES};
ghost use Rattle.ca_model.specs.StoreMap.{IsPair};
ghost use Rattle.ca_model.specs.Edges.{bound_of, IsProperBound};
ghost use Rattle.ca_model.specs.Event.{Write, WriteNew};
ghost use Rattle.ca_model.specs.Promises.{Promises};
ghost use Rattle.ca_model.specs.Known.{Known, Meets, Declines, Stays, StaysBesideRun};
ghost use Rattle.ca_model.specs.Function.{KeepsKey, MayBeAskedFor, MayBeAskedForAll};
ghost use Rattle.ca_model.specs.Answer.{IfDone, IfRefused, IfBusy, IsDone, IsNeverDeep, Got, Removed, Altered, RemovedIf, FoundAbove, FoundBelow};
ghost use Rattle.ca_model.specs.Runs.{IsOpen, HandedOut, Opens};

use crate::edge::Edge;
use crate::outcome::{Changed, Code, Outcome};
use std::alloc::AllocError;

/// A store of objects by their keys, both as byte codes. Objects are codes of tuples, and the key of one is the code of its element
/// `keypos`, counted from 1; `keypos` never changes.
///
/// What a store knows of the map may grow by others' edits in each call. Each call reads or edits one state between what was known
/// before it and what is known after it, and is one event there; its answer is the one of that state, and a store that tells its log
/// has it there. With a refusal nothing was edited, the log is as it was, and of four counts that contracts alone see the one of this
/// refusal rose by one, and the cause that it tells is the last one there; they change by nothing else. A store that is `sure` refuses nothing.
///
/// `range` opens a run: the objects of one state within two edges. They are handed out by `found`, and edits behind that state don't show in
/// them. Every other call but `close_run` wants that no run is open, and none is open behind it, nor behind a refusal.
///
/// A budget, of at least 1, is how many turns a call may lose to others before it answers `Busy`. A Code that is handed in need not be
/// empty; it is empty after a refusal. Only `reserve` takes memory.
///
/// What a store promises beyond this stands in its `promises`, a relation for each call, so that it writes no contract of its own.
pub trait OrderedStore {
    ghost knows: { Self → Known };

    ghost promises: { Promises Self };

    /// Makes room for a new key where there is none, so that the next `put` or `put_new` finds some. It makes no edit and learns of none, also
    /// where memory is not found. Where there is room it takes no memory, and changes nothing: a store that always has some never lacks any.
    fn reserve(&mut self) -> Result<(), AllocError>
        requires closed { (knows self.old).run ≡ None }
        ensures room { OnOk result (1 ≤ (knows self.new).spare) }
        ensures lack { OnErr result ((knows self.old).spare ≡ 0) }
        ensures spared { 1 ≤ (knows self.old).spare → knows self.new ≡ knows self.old }
        ensures stays { Stays (knows self.old) (knows self.new) }
        ensures promised { promises.reserve self.old self.new };

    /// Whether an object has the key; then `into` is the object, else it is empty. It is never refused.
    fn get(&mut self, key: &[u8], into: &mut Code, budget: u32) -> Outcome<bool>
        requires budget { 1 ≤ budget }
        requires closed { (knows self.old).run ≡ None }
        requires key { (1 ≤ length key.now) × (length key.now ≤ MOST_CODE_BYTES) }
        ensures done { IsDone result }
        ensures got { IfDone result (λ found. Got (knows self.old) (knows self.new) key.now found into.new.items) }
        ensures closed { (knows self.new).run ≡ None }
        ensures promised { promises.get budget self.old self.new key.now result into.new.items };

    /// Puts the object, in the place of its key's object where there is one. Its key stands in it from `key_at` to `key_end`.
    fn put(&mut self, object: &[u8], key_at: usize, key_end: usize, budget: u32) -> Outcome<()>
        requires budget { 1 ≤ budget }
        requires closed { (knows self.old).run ≡ None }
        requires room { 1 ≤ (knows self.old).spare }
        requires place { (key_at ≤ key_end) × (key_end ≤ length object.now) }
        requires pair { IsPair (knows self.old).keypos (slice_range object.now key_at key_end, object.now) }
        ensures put { IfDone result (λ _. Meets (knows self.old) (knows self.new) (Write (slice_range object.now key_at key_end) object.now)) }
        ensures refused { IfRefused result (λ rise. Declines (knows self.old) (knows self.new) (rise (knows self.old).counts)) }
        ensures busy { IfBusy result (λ spent. budget ≤ spent) }
        ensures closed { (knows self.new).run ≡ None }
        ensures promised { promises.put budget self.old self.new (slice_range object.now key_at key_end, object.now) result };

    /// Puts the object where no object has its key, and answers whether it did. Its key stands in it from `key_at` to `key_end`.
    fn put_new(
        &mut self,
        object: &[u8],
        key_at: usize,
        key_end: usize,
        budget: u32,
    ) -> Outcome<bool>
        requires budget { 1 ≤ budget }
        requires closed { (knows self.old).run ≡ None }
        requires room { 1 ≤ (knows self.old).spare }
        requires place { (key_at ≤ key_end) × (key_end ≤ length object.now) }
        requires pair { IsPair (knows self.old).keypos (slice_range object.now key_at key_end, object.now) }
        ensures put { IfDone result (λ new. Meets (knows self.old) (knows self.new) (WriteNew (slice_range object.now key_at key_end) object.now new)) }
        ensures refused { IfRefused result (λ rise. Declines (knows self.old) (knows self.new) (rise (knows self.old).counts)) }
        ensures busy { IfBusy result (λ spent. budget ≤ spent) }
        ensures closed { (knows self.new).run ≡ None }
        ensures promised { promises.put_new budget self.old self.new (slice_range object.now key_at key_end, object.now) result };

    /// Removes the key's object, and answers whether there was one; then `old` is the object, else it is empty.
    fn remove(&mut self, key: &[u8], old: &mut Code, budget: u32) -> Outcome<bool>
        requires budget { 1 ≤ budget }
        requires closed { (knows self.old).run ≡ None }
        requires key { (1 ≤ length key.now) × (length key.now ≤ MOST_CODE_BYTES) }
        ensures removed { IfDone result (λ was. Removed (knows self.old) (knows self.new) key.now was old.new.items) }
        ensures refused { IfRefused result (λ rise. Declines (knows self.old) (knows self.new) (rise (knows self.old).counts)) }
        ensures emptied { IfRefused result (λ _. old.new.items ≡ []) }
        ensures never_deep { IsNeverDeep result }
        ensures busy { IfBusy result (λ spent. budget ≤ spent) }
        ensures closed { (knows self.new).run ≡ None }
        ensures promised { promises.remove budget self.old self.new key.now result old.new.items };

    /// Removes the key's object where `f` answers true on it: `Put`. Where it answers false the object stays: `Kept`. In both cases `old`
    /// is the object; it is empty where no object has the key: `Absent`.
    fn remove_if<F: Fn(&[u8]) -> bool>(
        &mut self,
        key: &[u8],
        f: &F,
        old: &mut Code,
        budget: u32,
    ) -> Outcome<Changed>
        requires budget { 1 ≤ budget }
        requires closed { (knows self.old).run ≡ None }
        requires key { (1 ≤ length key.now) × (length key.now ≤ MOST_CODE_BYTES) }
        requires function { MayBeAskedFor F.Fn f.now (knows self.old).keypos key.now }
        ensures removed { IfDone result (λ changed. RemovedIf F.Fn f.now (knows self.old) (knows self.new) key.now changed old.new.items) }
        ensures refused { IfRefused result (λ rise. Declines (knows self.old) (knows self.new) (rise (knows self.old).counts)) }
        ensures emptied { IfRefused result (λ _. old.new.items ≡ []) }
        ensures never_deep { IsNeverDeep result }
        ensures busy { IfBusy result (λ spent. budget ≤ spent) }
        ensures closed { (knows self.new).run ≡ None }
        ensures promised { promises.remove_if F.Fn f.now budget self.old self.new key.now result old.new.items };

    /// Hands the key's object to `f`, with an empty Code and a number. Where it answers true, what it wrote into the Code replaces the
    /// object: `Put`; it must be an object with the same key, and the number that it wrote the byte at which the key begins there. Where
    /// it answers false the object stays: `Kept`. In both cases `old` is the object that was found; it is empty where no object has the
    /// key: `Absent`.
    fn change<F: Fn(&[u8], &mut Code, &mut usize) -> bool>(
        &mut self,
        key: &[u8],
        f: &F,
        old: &mut Code,
        budget: u32,
    ) -> Outcome<Changed>
        requires budget { 1 ≤ budget }
        requires closed { (knows self.old).run ≡ None }
        requires key { (1 ≤ length key.now) × (length key.now ≤ MOST_CODE_BYTES) }
        requires function { KeepsKey F.Fn f.now (knows self.old).keypos key.now }
        ensures changed { IfDone result (λ changed. Altered F.Fn f.now (knows self.old) (knows self.new) key.now changed old.new.items) }
        ensures refused { IfRefused result (λ rise. Declines (knows self.old) (knows self.new) (rise (knows self.old).counts)) }
        ensures emptied { IfRefused result (λ _. old.new.items ≡ []) }
        ensures never_deep { IsNeverDeep result }
        ensures busy { IfBusy result (λ spent. budget ≤ spent) }
        ensures closed { (knows self.new).run ≡ None }
        ensures promised { promises.change F.Fn f.now budget self.old self.new key.now result old.new.items };

    /// Whether an object is within the lower edge; then `into` is the first one, else it is empty.
    fn above(&mut self, lo: Edge<'_>, into: &mut Code, budget: u32) -> Outcome<bool>
        requires budget { 1 ≤ budget }
        requires closed { (knows self.old).run ≡ None }
        requires edge { IsProperBound (bound_of lo) }
        ensures found { IfDone result (λ found. FoundAbove (knows self.old) (knows self.new) (bound_of lo.entry) found into.new.items) }
        ensures refused { IfRefused result (λ rise. Declines (knows self.old) (knows self.new) (rise (knows self.old).counts)) }
        ensures emptied { IfRefused result (λ _. into.new.items ≡ []) }
        ensures never_deep { IsNeverDeep result }
        ensures busy { IfBusy result (λ spent. budget ≤ spent) }
        ensures closed { (knows self.new).run ≡ None }
        ensures promised { promises.above budget self.old self.new (bound_of lo.entry) result into.new.items };

    /// Whether an object is within the upper edge; then `into` is the last one, else it is empty.
    fn below(&mut self, hi: Edge<'_>, into: &mut Code, budget: u32) -> Outcome<bool>
        requires budget { 1 ≤ budget }
        requires closed { (knows self.old).run ≡ None }
        requires edge { IsProperBound (bound_of hi) }
        ensures found { IfDone result (λ found. FoundBelow (knows self.old) (knows self.new) (bound_of hi.entry) found into.new.items) }
        ensures refused { IfRefused result (λ rise. Declines (knows self.old) (knows self.new) (rise (knows self.old).counts)) }
        ensures emptied { IfRefused result (λ _. into.new.items ≡ []) }
        ensures never_deep { IsNeverDeep result }
        ensures busy { IfBusy result (λ spent. budget ≤ spent) }
        ensures closed { (knows self.new).run ≡ None }
        ensures promised { promises.below budget self.old self.new (bound_of hi.entry) result into.new.items };

    /// Opens a run of the objects within both edges, or from the lower edge up to a cut: true where it reaches the upper edge. It may be cut
    /// where `want` isn't 0, and `counts` answered true on at least `want` objects of the run.
    fn range<F: Fn(&[u8]) -> bool>(
        &mut self,
        lo: Edge<'_>,
        hi: Edge<'_>,
        want: u32,
        counts: &F,
        budget: u32,
    ) -> Outcome<bool>
        requires budget { 1 ≤ budget }
        requires closed { (knows self.old).run ≡ None }
        requires lower_edge { IsProperBound (bound_of lo) }
        requires upper_edge { IsProperBound (bound_of hi) }
        requires function { MayBeAskedForAll F.Fn counts.now (knows self.old).keypos }
        ensures opens { IfDone result (λ whole. Opens F.Fn counts.now (knows self.old) (knows self.new) (bound_of lo.entry) (bound_of hi.entry) want whole) }
        ensures refused { IfRefused result (λ rise. Declines (knows self.old) (knows self.new) (rise (knows self.old).counts)) }
        ensures closed { IfRefused result (λ _. (knows self.new).run ≡ None) }
        ensures never_deep { IsNeverDeep result }
        ensures busy { IfBusy result (λ spent. budget ≤ spent) }
        ensures promised { promises.range budget self.old self.new (bound_of lo.entry) (bound_of hi.entry) want result };

    /// Hands out the next object of the open run, in key order: true, and `into` is the object. At the end of the run it answers false, and
    /// `into` is empty. The store learns of no edit by it.
    fn found(&mut self, into: &mut Code) -> bool
        requires open { IsOpen (knows self.old) }
        ensures handed_out { HandedOut (knows self.old) (knows self.new) result into.new.items }
        ensures stays { StaysBesideRun (knows self.old) (knows self.new) }
        ensures promised { promises.found self.old self.new };

    /// Ends the open run, and does nothing where none is open.
    fn close_run(&mut self)
        ensures closed { (knows self.new).run ≡ None }
        ensures stays { StaysBesideRun (knows self.old) (knows self.new) }
        ensures promised { promises.close_run self.old self.new };
}
