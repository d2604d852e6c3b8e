//! The words of a space, and its passes.
ghost use Rattle.ca_rows.specs.Layout.{row_words, passes_words, row_limit};
ghost use Rattle.std.specs.Prelude.{◌≡◌, ◌+◌, ◌*◌, ◌<◌, ◌≤◌, IsSome};
ghost use Rattle.std.specs.Option.{ForSome};
ghost use Rattle.ca_rows.specs.Calls.{IsNumbered};
ghost use Rattle.ca_rows.specs.Owned.{HasNoSlot, IsOwnSeat};

use crate::kept::KeptRows;
use crate::rest::Rest;
use crate::rule::{RowRule, Rows};
use crate::sizes::Sizes;
use crate::tally::Tally;
use crate::view::View;
use atomic_table::{Seat, Table};
use std::alloc::Global;
use std::marker::PhantomData;

/// The words of a space, which threads share.
pub struct Space<R: RowRule> {
    pub(crate) table: Table<(), View<R::Upper>, Sizes, Rows<R>, Global>,
    pub(crate) own: Option<Rest<(), View<R::Upper>>>,
    pub(crate) sizes: Sizes,
    pub(crate) made: u32,
    pub ghost same: { sizes ≡ table.shared.key },
    pub ghost sized: { table.shared.table_id.words ≡ row_words * table.shared.key.rows + row_words + passes_words },
    pub ghost no_slots: { table.shared.table_id.slots ≡ 0 },
    pub ghost few: { (0 < table.shared.key.rows) × (table.shared.key.rows < row_limit) },
    pub ghost passes: { (made ≤ sizes.passes) × (sizes.passes ≤ 64) },
    pub ghost has: { IsSome own },
    pub ghost mine: { ForSome own (λ rest. IsOwnSeat table.shared.table_id sizes made rest.seat) },
}

/// A pass: the right to take steps on a space. It carries what it knows, holds no slot, and its seat has its number, from 1 on.
pub struct Pass<R: RowRule> {
    pub(crate) seat: Seat<(), View<R::Upper>>,
    pub(crate) number: u32,
    pub(crate) kept: KeptRows,
    pub(crate) tally: Tally,
    // Its steps are those of a table under this rule.
    pub(crate) table: PhantomData<Table<(), View<R::Upper>, Sizes, Rows<R>, Global>>,
    pub ghost hands: { HasNoSlot seat },
    pub ghost numbered: { IsNumbered number seat.me.0.pin },
}

/// What a pass knew when it was split off.
pub struct Half<R: RowRule> {
    pub(crate) seat: Seat<(), View<R::Upper>>,
}

impl<R: RowRule> Drop for Space<R> {
    fn drop(self) {
        let Self {
            table: _,
            own: _,
            sizes: _,
            made: _,
        } = self;
    }
}

impl<R: RowRule> Drop for Pass<R> {
    fn drop(self) {
        let Self {
            seat: _,
            number: _,
            kept: _,
            tally: _,
            table: _,
        } = self;
    }
}

impl<R: RowRule> Drop for Half<R> {
    fn drop(self) {
        let Self { seat: _ } = self;
    }
}

impl<R: RowRule> Space<R> {
    // The table and the space's own seat.
    pub(crate) fn into_parts(
        self,
    ) -> (
        Table<(), View<R::Upper>, Sizes, Rows<R>, Global>,
        Option<Rest<(), View<R::Upper>>>,
    )
        ensures { (result.0 ≡ self.table) × (result.1 ≡ self.own) }
    {
        let Self {
            table,
            own,
            sizes: _,
            made: _,
        } = self;
        (table, own)
    }
}

impl<R: RowRule> Pass<R> {
    pub(crate) fn into_seat(self) -> Seat<(), View<R::Upper>>
        ensures { result ≡ self.seat }
    {
        let Self {
            seat,
            number: _,
            kept: _,
            tally: _,
            table: _,
        } = self;
        seat
    }
}

impl<R: RowRule> Half<R> {
    pub(crate) fn into_seat(self) -> Seat<(), View<R::Upper>>
        ensures { result ≡ self.seat }
    {
        let Self { seat } = self;
        seat
    }
}
