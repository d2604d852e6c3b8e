//! A space is closed, and its words are read.
ghost use Rattle.std.specs.Prelude.{◌≡◌, ◌<◌, ◌≤◌, false, map, vec_len, Some};
ghost use Rattle.std.specs.List.{All};
ghost use Rattle.std.specs.Mem.Slots.{slots_items, slots_len};
ghost use Rattle.ca_rows.specs.Closed.{IsClosable, IsLast, joined_from};
ghost use Rattle.ca_rows.specs.Rule.{Ruled};

use crate::plays::Close;
use crate::rule::{RowRule, Rows};
use crate::sizes::Sizes;
use crate::space::{Pass, Space};
use crate::view::View;
use crate::words::Words;
use atomic_table::{Seat, Table};
use std::alloc::Global;

impl<R: RowRule> Space<R> {
    /// Ends a space whose passes are all here, which are no fewer than were made, and none is pinned: they are joined into the space's own seat.
    pub fn close(self, passes: Vec<Pass<R>>) -> Words
        requires all { self.made ≤ vec_len passes }
        requires closable { All (λ pass. IsClosable self.table.shared.table_id pass.seat) passes.items }
        ensures counts { slots_len result.closed.words ≡ self.table.shared.table_id.words }
        ensures words { (rest : _) → self.own ≡ Some rest → IsLast (Ruled R.linked R.lent R.noted R.fact self.table.shared.key)
            (joined_from R.both rest.seat.me.0 (map (λ pass. pass.seat.me.0) passes.items)) (slots_items result.closed.words) }
    {
        let (table, own) = self.into_parts();
        let Some(rest) = own else {
            return Words::of(table.close());
        };
        let mut seat = rest.take_up();
        gather(&table, &mut seat, passes);
        Words::of(table.close_with(seat))
    }
}

// Joins the passes' seats into a seat.
fn gather<R: RowRule>(
    table: &Table<(), View<R::Upper>, Sizes, Rows<R>, Global>,
    seat: &mut Seat<(), View<R::Upper>>,
    mut passes: Vec<Pass<R>>,
)
    requires words { 0 < table.now.shared.table_id.words }
    requires seat { (seat.old.table_id ≡ table.now.shared.table_id) × (seat.old.id ≡ 0) × (seat.old.me.0.pin.pinned ≡ false) }
    requires closable { All (λ pass. IsClosable table.now.shared.table_id pass.seat) passes.items }
    ensures same { (seat.new.table_id ≡ seat.old.table_id) × (seat.new.id ≡ seat.old.id) }
    ensures joined { seat.new.me.0 ≡ joined_from R.both seat.old.me.0 (map (λ pass. pass.seat.me.0) passes.items) }
{
    while let Some(pass) = passes.pop() {
        table.shared.join_seat::<Close<R>>(seat, pass.into_seat());
    }
}
