//! What each step of the rows tells.
ghost use Rattle.std.specs.Prelude.{ℕ, ◌+◌};
ghost use Rattle.ca_rows.specs.Calls.{Raises, Relinks};
ghost use Rattle.ca_rows.specs.Closed.{joined};
ghost use Rattle.ca_rows.specs.Rule.{fresh, no_sizes};
ghost use Rattle.ca_rows.specs.Told.{Looked, Glanced, Peeked, Took, Recalled, Wrote, Gave, Asked, Announced, Left, Retired, Regained, Reread as Told, Began, Scanned, Moved};

use crate::rule::RowRule;
use crate::view::View;
use atomic_table::{Join, Play, Split};
use std::marker::{Brand, PhantomData};

/// The load of the pool's head with which a row is taken.
pub struct Look<R> {
    rule: PhantomData<R>,
}

impl<R: RowRule> Play<(), View<R::Upper>> for Look<R> {
    ghost then = { Looked R.listed };
}

/// The load of the pool's head with which a row is put back.
pub struct Glance;

impl<U> Play<(), View<U>> for Glance {
    ghost then = { Glanced };
}

/// A load of the next free row.
pub struct Peek;

impl<U> Play<(), View<U>> for Peek {
    ghost then = { Peeked };
}

/// The exchange that takes a row.
pub struct Take;

impl<U> Play<(), View<U>> for Take {
    ghost then = { Took };
}

/// A load of a word of a held row.
pub struct Recall;

impl<U> Play<(), View<U>> for Recall {
    ghost then = { Recalled };
}

/// A store in a held row.
pub struct Write;

impl<U> Play<(), View<U>> for Write {
    ghost then = { Wrote };
}

/// The exchange that puts a row back.
pub struct Give;

impl<U> Play<(), View<U>> for Give {
    ghost then = { Gave };
}

/// The step that makes a pass.
pub struct Make<R> {
    rule: PhantomData<R>,
}

impl<R: RowRule> Split<View<R::Upper>> for Make<R> {
    ghost left = { λ v. record v { made = v.made + 1 } };

    ghost right = { λ v. fresh v.sizes (v.made + 1) (R.begins (v.made + 1)) };
}

/// A load of the epoch, to announce it.
pub struct Ask;

impl<U> Play<(), View<U>> for Ask {
    ghost then = { Asked };
}

/// The store of an announcement.
pub struct Announce<R> {
    rule: PhantomData<R>,
}

impl<R: RowRule> Play<(), View<R::Upper>> for Announce<R> {
    ghost then = { Announced R.enters };
}

/// The store that takes it back.
pub struct Leave<R> {
    rule: PhantomData<R>,
}

impl<R: RowRule> Play<(), View<R::Upper>> for Leave<R> {
    ghost then = { Left R.leaves };
}

/// Which row a step is about, where its word doesn't tell. It exists in proofs alone.
pub trait Named {
    ghost about: { ℕ };
}

impl Named for Brand {
    ghost about = { 0 };
}

/// The load of the epoch that a row is retired with.
pub struct Retire<K> {
    named: PhantomData<K>,
}

impl<K: Named, U> Play<(), View<U>> for Retire<K> {
    ghost then = { λ st m n m'. Retired K.about st m n m' };
}

/// The load after which a pass holds a row that it kept.
pub struct Regain<K> {
    named: PhantomData<K>,
}

impl<K: Named, U> Play<(), View<U>> for Regain<K> {
    ghost then = { λ st m n m'. Regained K.about st m n m' };
}

/// The load of the pass's own announcement.
pub struct Reread;

impl<U> Play<(), View<U>> for Reread {
    ghost then = { Told };
}

/// The load of the epoch that begins a look at the others.
pub struct Begin;

impl<U> Play<(), View<U>> for Begin {
    ghost then = { Began };
}

/// The load of the next announcement.
pub struct Scan;

impl<U> Play<(), View<U>> for Scan {
    ghost then = { Scanned };
}

/// The exchange that moves the epoch by one.
pub struct Move;

impl<U> Play<(), View<U>> for Move {
    ghost then = { Moved };
}

/// The step that joins a pass's seat into the space's own one.
pub struct Close<R> {
    rule: PhantomData<R>,
}

impl<R: RowRule> Join<View<R::Upper>> for Close<R> {
    ghost both = { joined R.both };

    ghost spent = { fresh no_sizes 0 R.spent };
}

/// A load by the structure above, which tells what `M` says, and changes nothing that a seat knows of the rows.
pub struct Raise<R, M> {
    rule: PhantomData<R>,
    play: PhantomData<M>,
}

impl<R: RowRule, M: Play<(), View<R::Upper>>> Play<(), View<R::Upper>> for Raise<R, M> {
    ghost then = { λ st m n m'. Raises R.loads M.then st m n m' };
}

/// A store by the structure above, which changes nothing that a seat knows of the rows.
pub struct Put<R, M> {
    rule: PhantomData<R>,
    play: PhantomData<M>,
}

impl<R: RowRule, M: Play<(), View<R::Upper>>> Play<(), View<R::Upper>> for Put<R, M> {
    ghost then = { λ st m n m'. Raises R.stores M.then st m n m' };
}

/// An exchange by the structure above.
pub struct Relink<R, M> {
    rule: PhantomData<R>,
    play: PhantomData<M>,
}

impl<R: RowRule, M: Play<(), View<R::Upper>>> Play<(), View<R::Upper>> for Relink<R, M> {
    ghost then = { λ st m n m'. Relinks R.swaps M.then st m n m' };
}
