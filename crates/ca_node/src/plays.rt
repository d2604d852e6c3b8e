//! What each step of the tree tells.
ghost use Rattle.std.specs.Prelude.{ℕ, List, [], ◌∷◌, true, false};
ghost use Rattle.ca_node.specs.Aside.{PassesOn};
ghost use Rattle.ca_node.specs.Copies.{Copy, no_copy, Copies, marking_now};
ghost use Rattle.ca_node.specs.Endings.{Helps};
ghost use Rattle.ca_node.specs.JoinSteps.{LoadsJoin, AbortsSome, BeginsSome, SecuresSome, LeavesSome};
ghost use Rattle.ca_node.specs.OwnRanges.{Opens, WatchesOwn, DecidesOwn, Aborts, Leaves};
ghost use Rattle.ca_node.specs.Row.{mark_bound};
ghost use Rattle.ca_node.specs.Told.{Leads, Reads, Watches, Update, Updates, no_update, Divides, no_division, front_of, learnt};
ghost use Rattle.ca_node.specs.TreeView.{blank, no_note, no_border, none_begun, Note, Border, Begun, Division};
ghost use Rattle.ca_node.specs.Unlinks.{Unlinking, no_unlinking, UnlinksRoute};
ghost use Rattle.ca_rows.specs.Closed.{joined};
ghost use Rattle.ca_rows.specs.Rule.{fresh, no_sizes};

use crate::view::Knowledge;
use atomic_table::{Join, Play, Split};
use ca_rows::View;
use std::marker::{Brand, PhantomData};

/// A load of a link.
pub struct Lead;

impl Play<(), View<Knowledge>> for Lead {
    ghost then = { λ st m n m'. Leads false st m n m' };
}

/// A load of a link by a walk.
pub struct Descend;

impl Play<(), View<Knowledge>> for Descend {
    ghost then = { λ st m n m'. Leads true st m n m' };
}

/// A load of a word of a row that was shown.
pub struct Read;

impl Play<(), View<Knowledge>> for Read {
    ghost then = { Reads };
}

/// A load of the word that says how far the last range of a pass is.
pub struct Watch;

impl Play<(), View<Knowledge>> for Watch {
    ghost then = { Watches };
}

/// A load by which a pass counts that it looked to the left.
pub struct PassOn;

impl Play<(), View<Knowledge>> for PassOn {
    ghost then = { PassesOn };
}

/// Which base a step marks for a range, or for a join: the copy that takes its place; and of a range how it was begun, the words of the row that says up to
/// where it goes, and the base that it marked before. It exists in proofs alone.
pub trait Marking {
    ghost copy: { Copy };

    ghost begun: { Begun };

    ghost border: { List ℕ };

    ghost left: { Note };
}

impl Marking for Brand {
    ghost copy = { no_copy };

    ghost begun = { none_begun };

    ghost border = { [] };

    ghost left = { no_note };
}

/// The exchange of a link that marks the first base of the pass's own range.
pub struct MarkFirst<K> {
    marking: PhantomData<K>,
}

impl<K: Marking> Play<(), View<Knowledge>> for MarkFirst<K> {
    ghost then = { λ st m n m'. Copies (K.begun.top ∷ []) (marking_now m.0.upper.ranges K.begun K.border) K.copy st m n m' };
}

/// The exchange of a link that marks the next base of a range, or one for a join.
pub struct MarkNext<K> {
    marking: PhantomData<K>,
}

impl<K: Marking> Play<(), View<Knowledge>> for MarkNext<K> {
    ghost then = { λ st m n m'. Copies [] m.0.upper.ranges K.copy st m n m' };
}

/// Which range a step ends, by its pass and its number, with which base, and the row that says up to where it goes. It exists in proofs alone.
pub trait Finishing {
    ghost pass: { ℕ };

    ghost number: { ℕ };

    ghost last: { Note };

    ghost border: { Border };
}

impl Finishing for Brand {
    ghost pass = { 0 };

    ghost number = { 0 };

    ghost last = { no_note };

    ghost border = { no_border };
}

/// The exchange that decides another pass's range.
pub struct Help<K> {
    ending: PhantomData<K>,
}

impl<K: Finishing> Play<(), View<Knowledge>> for Help<K> {
    ghost then = { λ st m n m'. Helps K.pass K.number (mark_bound K.last.its) st m n m' };
}

/// A load of the word that says how far the pass's own range is.
pub struct WatchOwn;

impl Play<(), View<Knowledge>> for WatchOwn {
    ghost then = { WatchesOwn };
}

/// A load of the word that says how far the join of a route is.
pub struct LoadJoin;

impl Play<(), View<Knowledge>> for LoadJoin {
    ghost then = { LoadsJoin };
}

/// The exchange that gives up an attempt to join.
pub struct AbortJoin;

impl Play<(), View<Knowledge>> for AbortJoin {
    ghost then = { AbortsSome };
}

/// The exchange that secures one.
pub struct SecureJoin;

impl Play<(), View<Knowledge>> for SecureJoin {
    ghost then = { SecuresSome };
}

/// The exchange by which a pass leaves its own one.
pub struct LeaveJoin;

impl Play<(), View<Knowledge>> for LeaveJoin {
    ghost then = { LeavesSome };
}

/// The exchange that begins one.
pub struct BeginJoin;

impl Play<(), View<Knowledge>> for BeginJoin {
    ghost then = { BeginsSome };
}

/// Which range of its own a pass begins, or ends: as it was begun, the row that says up to where it goes, and the base with which it decides it. It exists
/// in proofs alone.
pub trait Owning {
    ghost begun: { Begun };

    ghost border: { Border };

    ghost last: { Note };
}

impl Owning for Brand {
    ghost begun = { none_begun };

    ghost border = { no_border };

    ghost last = { no_note };
}

/// The store by which a pass begins a range.
pub struct OpenOwn<K> {
    beginning: PhantomData<K>,
}

impl<K: Owning> Play<(), View<Knowledge>> for OpenOwn<K> {
    ghost then = { Opens K.begun };
}

/// The exchange by which a pass gives up a range for which it marked nothing.
pub struct LeaveOwn<K> {
    ending: PhantomData<K>,
}

impl<K: Owning> Play<(), View<Knowledge>> for LeaveOwn<K> {
    ghost then = { Leaves K.begun };
}

/// The exchange that decides the pass's own range.
pub struct DecideOwn<K> {
    ending: PhantomData<K>,
}

impl<K: Owning> Play<(), View<Knowledge>> for DecideOwn<K> {
    ghost then = { DecidesOwn K.begun K.border K.last };
}

/// The exchange by which the pass gives it up.
pub struct AbortOwn<K> {
    ending: PhantomData<K>,
}

impl<K: Owning> Play<(), View<Knowledge>> for AbortOwn<K> {
    ghost then = { Aborts K.begun K.border };
}

/// The step that makes a front.
pub struct Fork;

impl Split<View<Knowledge>> for Fork {
    ghost left = { λ v. v };

    ghost right = { λ v. fresh no_sizes 0 (front_of v.upper) };
}

/// The step that takes a front in.
pub struct Learn;

impl Join<View<Knowledge>> for Learn {
    ghost both = { joined learnt };

    ghost spent = { fresh no_sizes 0 (blank 0) };
}

/// Which update a step carries out. It exists in proofs alone.
pub trait Intent {
    ghost update: { Update };
}

impl Intent for Brand {
    ghost update = { no_update };
}

/// The exchange of a link that carries out an update.
pub struct Replace<K> {
    updating: PhantomData<K>,
}

impl<K: Intent> Play<(), View<Knowledge>> for Replace<K> {
    ghost then = { λ st m n m'. Updates K.update st m n m' };
}

/// Which split a step carries out. It exists in proofs alone.
pub trait Plan {
    ghost division: { Division };
}

impl Plan for Brand {
    ghost division = { no_division };
}

/// The exchange of a link that carries out a split.
pub struct Divide<K> {
    dividing: PhantomData<K>,
}

impl<K: Plan> Play<(), View<Knowledge>> for Divide<K> {
    ghost then = { λ st m n m'. Divides K.division st m n m' };
}

/// Which route a step unlinks, whose join is secured. It exists in proofs alone.
pub trait Unlinks {
    ghost unlinking: { Unlinking };
}

impl Unlinks for Brand {
    ghost unlinking = { no_unlinking };
}

/// The exchange of a link that puts the joined base in the place of a route.
pub struct Unlink<K> {
    unlinking: PhantomData<K>,
}

impl<K: Unlinks> Play<(), View<Knowledge>> for Unlink<K> {
    ghost then = { λ st m n m'. UnlinksRoute K.unlinking st m n m' };
}
