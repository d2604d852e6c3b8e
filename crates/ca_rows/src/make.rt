//! Spaces and passes are made.
ghost use Rattle.std.specs.Prelude.{◌≡◌, ◌≢◌, ◌↔◌, IsTrue, ◌+◌, ◌<◌, [], IfOk, OnOk, OnErr, Err, vec_len};
ghost use Rattle.ca_rows.specs.declared.fault.RowsFault.TheVariants.{BadSize as IsBadSize, NoPass as IsNoPass};
ghost use Rattle.ca_rows.specs.Kept.{AreKept};
ghost use Rattle.ca_rows.specs.Opening.{AreInBounds, AreUsable, sizes_by};
ghost use Rattle.ca_rows.specs.Passes.{BeginsOn};
ghost use Rattle.ca_rows.specs.Rule.{fresh};

use crate::fault::RowsFault;
use crate::kept::KeptRows;
use crate::layout::{LAST_EPOCH, LAST_SEQUENCE, LAST_TAG, ROW_LIMIT};
use crate::opening::opening;
use crate::plays::Make;
use crate::rest::Rest;
use crate::rule::RowRule;
use crate::sizes::{Sizes, Starts};
use crate::space::{Pass, Space};
use crate::tally::Tally;
use atomic_table::Table;
use std::alloc::Global;
use std::marker::PhantomData;

impl Sizes {
    /// Whether rows (384 to 2^24 - 1), passes (1 to 64) and starts (each up to its counter's last value) are within their bounds.
    pub fn are_in_bounds(&self) -> bool
        ensures { IsTrue result ↔ AreInBounds self.now }
    {
        384 <= self.rows
            && (self.rows as u64) < ROW_LIMIT
            && 1 <= self.passes
            && self.passes <= 64
            && self.starts.tag <= LAST_TAG
            && self.starts.epoch <= LAST_EPOCH
            && self.starts.sequence <= LAST_SEQUENCE
            && self.starts.attempt <= (1 << 62) - 1
    }
}

impl<R: RowRule> Space<R> {
    /// A space whose rows but row 1 are free, and which no pass was made for. It is refused with `BadSize` where its sizes aren't within their bounds, and else
    /// with `NoMemory` where memory for its words lacks: eight bytes each, 136 a row and 648 more.
    pub fn new(
        alloc: Global,
        rows: u32,
        passes: u32,
        keypos: u32,
        leaf: u8,
        levels: u16,
        starts: Starts,
    ) -> Result<Space<R>, RowsFault>
        requires { AreUsable (sizes_by rows passes keypos leaf levels starts) }
        ensures bad { (result ≡ Err IsBadSize) ↔ ¬ AreInBounds (sizes_by rows passes keypos leaf levels starts) }
        ensures never { result ≢ Err IsNoPass }
        ensures sizes { IfOk result (λ space. space.sizes ≡ sizes_by rows passes keypos leaf levels starts) }
        ensures none { IfOk result (λ space. space.made ≡ 0) }
    {
        let sizes = Sizes {
            rows,
            passes,
            keypos,
            leaf,
            levels,
            starts,
        };
        if !sizes.are_in_bounds() {
            return Err(RowsFault::BadSize);
        }
        let Ok(words) = opening::<R>(alloc, &sizes) else {
            return Err(RowsFault::NoMemory);
        };
        let Ok((table, seat)) = Table::of_words(alloc, words.as_slice(), &sizes) else {
            return Err(RowsFault::NoMemory);
        };
        Ok(Space {
            table,
            own: Some(Rest::lay(seat)),
            sizes,
            made: 0,
        })
    }

    /// How many passes were made.
    pub fn enrolled(&self) -> u32
        ensures { result ≡ self.now.made }
    {
        self.made
    }

    /// With which numbers the counters began.
    pub fn starts(&self) -> Starts
        ensures { result ≡ self.now.sizes.starts }
    {
        self.sizes.starts
    }

    /// How many rows there are: they have the numbers from 1 to this.
    pub fn rows(&self) -> u32
        ensures { result ≡ self.now.sizes.rows }
    {
        self.sizes.rows
    }

    /// Makes a pass, with a list that has room for all rows. Its number is that of the passes made until then, and it, together. It is refused with `NoPass`
    /// where as many were made as the space is for, and with `NoMemory` where memory for the list lacks; then no pass more was made.
    pub fn enroll(&mut self, alloc: Global) -> Result<Pass<R>, RowsFault>
        ensures full { (result ≡ Err IsNoPass) ↔ (self.old.made ≡ self.old.sizes.passes) }
        ensures never { result ≢ Err IsBadSize }
        ensures same { (self.new.table.shared ≡ self.old.table.shared) × (self.new.sizes ≡ self.old.sizes) }
        ensures counted { OnOk result (self.new.made ≡ self.old.made + 1) }
        ensures refused { OnErr result (self.new.made ≡ self.old.made) }
        ensures number { IfOk result (λ pass. pass.number ≡ self.new.made) }
        ensures tally { IfOk result (λ pass. pass.tally ≡ record { splits = 0; joins = 0 }) }
        ensures nothing_kept { IfOk result (λ pass. AreKept self.old.sizes.rows pass.seat.me.0.claims pass.kept.rows × (pass.kept.rows.items ≡ [])) }
        ensures begins { IfOk result (λ pass. BeginsOn self.old pass (fresh self.old.sizes pass.number (R.begins pass.number))) }
    {
        if self.made == self.sizes.passes {
            return Err(RowsFault::NoPass);
        }
        let Ok(kept) = KeptRows::with_room(alloc, self.sizes.rows) else {
            return Err(RowsFault::NoMemory);
        };
        let Some(rest) = self.own.take() else {
            return Err(RowsFault::NoMemory);
        };
        let mut seat = rest.take_up();
        let new = self.table.shared.split_seat::<Make<R>>(&mut seat);
        self.own = Some(Rest::lay(seat));
        self.made += 1;
        Ok(Pass {
            seat: new,
            number: self.made,
            kept,
            tally: Tally {
                splits: 0,
                joins: 0,
            },
            table: PhantomData,
        })
    }
}

impl<R: RowRule> Pass<R> {
    /// The number of the pass, counted from 1.
    pub fn number(&self) -> u32
        ensures { result ≡ self.now.number }
    {
        self.number
    }

    /// How many rows it keeps: those that were retired and aren't given back yet.
    pub fn kept(&self) -> u32
        ensures { result ≡ vec_len self.now.kept.rows }
    {
        self.kept.len()
    }

    /// How many splits and joins it carried out.
    pub fn tally(&self) -> Tally
        ensures { result ≡ self.now.tally }
    {
        self.tally
    }
}
