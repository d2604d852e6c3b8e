//! Passes give back the rows that they keep, once nobody can have a note on them.
ghost use Rattle.ca_rows.specs.Layout.{row_words, row_limit, last_epoch};
ghost use Rattle.std.specs.Prelude.{◌≡◌, ◌↔◌, IsTrue, ℕ, ◌+◌, ◌*◌, ◌-◌, ◌<◌, ◌≤◌, ◌++◌, cond, true, false, List, length, take, drop, slice_index_or, vec_len, vec_capacity};
ghost use Rattle.std.specs.declared.option.Option.TheVariants.{None, Some};
ghost use mathlib.Core.Option.{some};
ghost use Rattle.ca_rows.specs.declared.view.Claim.TheVariants.{Holds as IsHeld, Keeps as IsKept};
ghost use Rattle.ca_rows.specs.Claims.{claim_of, claimed};
ghost use Rattle.ca_rows.specs.Kept.{AreKept, AreKeptBut, HasAged, kept_of, nobody};
ghost use Rattle.ca_rows.specs.Reclaiming.{EndsLook, Reclaims, GivesBack, GivesOld, IsLag, lag_count, IsLook, MakesRounds, Moves, Rounds};
ghost use Rattle.ca_rows.specs.Told.{HoldsAgain, IsOnly};
ghost use Rattle.ca_rows.specs.Passes.{IsOn, IsSamePass, KeepsList, MayReclaim, sizes, known, view};

use crate::layout::LAST_EPOCH;
use crate::plays::{Begin, Move, Named, Regain, Scan};
use crate::reclaimed::{Reclaimed, Round};
use crate::rule::RowRule;
use crate::space::{Pass, Space};
use std::marker::Brand;

impl<R: RowRule> Space<R> {
    // The pass holds the row again that K names.
    fn regain_as<K: Named>(&self, pass: &mut Pass<R>, _row: u32)
        requires own { IsOn self.now pass.old }
        requires old { (t : ℕ) × (claim_of (view pass.old).claims K.about ≡ some (IsKept t)) × (t + 2 ≤ (view pass.old).pin.scan) }
        ensures frame { KeepsList pass.old pass.new }
        ensures held { HoldsAgain K.about (known pass.old) (known pass.new) }
    {
        self.table.shared.load::<Regain<K>>(&mut pass.seat, 1);
    }

    // Gives back the kept row at this place of the list, in which those behind it up to `end` are given back already, and stand still. False exactly
    // where the exchange lost: they are taken out then, and the row is kept since now, behind the others.
    fn give_back(&self, pass: &mut Pass<R>, at: u32, end: u32) -> bool
        requires own { IsOn self.now pass.old }
        requires list { AreKeptBut (sizes self.now).rows (at + 1) end (view pass.old).claims pass.old.kept.rows }
        requires place { (at < end) × (end ≤ vec_len pass.old.kept.rows) }
        requires old { (slice_index_or pass.old.kept.rows.items at nobody).at + 2 ≤ (view pass.old).pin.scan }
        ensures frame { IsSamePass pass.old pass.new }
        ensures list { result ≡ true → AreKeptBut (sizes self.now).rows at end (view pass.new).claims pass.new.kept.rows }
        ensures again { result ≡ false → AreKept (sizes self.now).rows (view pass.new).claims pass.new.kept.rows }
        ensures given { GivesBack result at end (known pass.old) (known pass.new) pass.old.kept.rows.items pass.new.kept.rows.items }
        ensures only { IsOnly (known pass.old) → result ≡ true }
    {
        let row = pass.kept.row(at);
        let form = pass.kept.form(at);
        self.regain_as::<Brand>(pass, row);
        if self.put_row(pass, row) {
            return true;
        }
        pass.kept.cut(at, end);
        self.retire(pass, row, form);
        false
    }

    // Gives back the rows that were kept two epochs before this one, which stand before all others, from the last: how many, and how many exchanges lost.
    // A row whose exchange lost doesn't keep the others from being tried.
    fn give_old(&self, pass: &mut Pass<R>, epoch: u64) -> (u32, u32)
        requires own { IsOn self.now pass.old }
        requires list { AreKept (sizes self.now).rows (view pass.old).claims pass.old.kept.rows }
        requires epoch { (view pass.old).pin.scan ≡ epoch }
        ensures frame { IsSamePass pass.old pass.new }
        ensures list { AreKept (sizes self.now).rows (view pass.new).claims pass.new.kept.rows }
        ensures gives { GivesOld epoch result.0 result.1 (known pass.old) (known pass.new) pass.old.kept.rows pass.new.kept.rows }
        ensures only { IsOnly (known pass.old) → result.1 ≡ 0 }
    {
        let mut freed = 0;
        let mut losses = 0;
        let mut at = pass.kept.old_count(epoch);
        let mut end = at;
        while at > 0 {
            at -= 1;
            if self.give_back(pass, at, end) {
                freed += 1;
            } else {
                losses += 1;
                end = at;
            }
        }
        pass.kept.cut(0, end);
        (freed, losses)
    }

    // The first pass whose announcement is older than the epoch that the look began with.
    fn lagging(&self, pass: &mut Pass<R>, epoch: u64) -> Option<u32>
        requires own { IsOn self.now pass.old }
        requires begun { ((view pass.old).pin.scan ≡ epoch) × ((view pass.old).pin.upto ≡ 0) }
        requires unpinned { (view pass.old).pin.pinned ≡ false }
        ensures frame { KeepsList pass.old pass.new }
        ensures look { IsLook (sizes self.now).passes result (known pass.old) (known pass.new) }
        ensures only { IsOnly (known pass.old) → result ≡ None }
    {
        let mut seen = 0;
        while seen < self.sizes.passes {
            let word = self.own_word(seen + 1);
            let announced = self.table.shared.load::<Scan>(&mut pass.seat, word);
            if announced != 0 && announced <= epoch {
                return Some(seen + 1);
            }
            seen += 1;
        }
        None
    }

    // Moves the epoch, at which all passes were found, by one. False exactly where the exchange lost.
    fn move_epoch(&self, pass: &mut Pass<R>, epoch: u64) -> bool
        requires own { IsOn self.now pass.old }
        requires seen { ((view pass.old).pin.scan ≡ epoch) × ((view pass.old).pin.upto ≡ (sizes self.now).passes) }
        requires begun { 0 < (view pass.old).pin.looks }
        requires room { epoch < last_epoch }
        ensures frame { KeepsList pass.old pass.new }
        ensures moves { Moves result epoch (known pass.old) (known pass.new) }
        ensures only { IsOnly (known pass.old) → result ≡ true }
    {
        self.table
            .shared
            .compare_exchange::<Move>(&mut pass.seat, 1, epoch, epoch + 1)
            == epoch
    }

    // Loads the epoch, gives back what is kept since two epochs, and moves the epoch by one where all passes are absent or at it.
    fn round(&self, pass: &mut Pass<R>) -> Round
        requires ready { MayReclaim self.now pass.old }
        ensures frame { IsSamePass pass.old pass.new }
        ensures list { AreKept (sizes self.now).rows (view pass.new).claims pass.new.kept.rows }
        ensures rounds { Rounds (sizes self.now).passes pass.old.number result (known pass.old) (known pass.new) pass.old.kept.rows.items
            pass.new.kept.rows.items }
        ensures only { IsOnly (known pass.old) → (result.lag ≡ None) × (result.losses ≡ 0) }
    {
        let epoch = self.table.shared.load::<Begin>(&mut pass.seat, 1);
        let (freed, losses) = self.give_old(pass, epoch);
        let round = Round {
            freed,
            lag: None,
            losses,
            epoch,
            more: false,
        };
        if pass.kept.len() == 0 || epoch == LAST_EPOCH {
            return round;
        }
        if let Some(number) = self.lagging(pass, epoch) {
            return Round {
                lag: Some(number),
                ..round
            };
        }
        if self.move_epoch(pass, epoch) {
            Round {
                epoch: epoch + 1,
                more: true,
                ..round
            }
        } else {
            Round {
                losses: losses + 1,
                more: true,
                ..round
            }
        }
    }

    /// Gives back rows that the pass keeps, in up to three rounds. Each loads the epoch, gives back the rows that were retired two epochs before or earlier,
    /// loads all announcements, and moves the epoch by one where each is absent or equal to it. A row whose putting back lost its exchange is retired anew.
    /// A pass that is the only one which the space is for loses no exchange, and finds no pass that lags.
    pub fn reclaim(&self, pass: &mut Pass<R>) -> Reclaimed
        requires own { IsOn self.now pass.old }
        requires unpinned { (view pass.old).pin.pinned ≡ false }
        requires list { AreKept (sizes self.now).rows (view pass.old).claims pass.old.kept.rows }
        ensures frame { IsSamePass pass.old pass.new }
        ensures list { AreKept (sizes self.now).rows (view pass.new).claims pass.new.kept.rows }
        ensures reclaims { Reclaims (known pass.old) (known pass.new) }
        ensures looked { (view pass.old).pin.looks < (view pass.new).pin.looks }
        ensures freed { result.freed + vec_len pass.new.kept.rows ≡ vec_len pass.old.kept.rows }
        ensures kept { result.kept ≡ vec_len pass.new.kept.rows }
        ensures lag { IsLag (sizes self.now).passes pass.old.number result.lag (view pass.new).pin }
        ensures lags { (view pass.new).pin.lags ≡ (view pass.old).pin.lags + lag_count result.lag }
        ensures losses { (view pass.new).lost ≡ (view pass.old).lost + result.losses }
        ensures few { result.losses ≤ 3 * row_limit }
        ensures lost { IsTrue result.lost ↔ 0 < result.losses }
        ensures epoch { result.epoch ≡ (view pass.new).pin.scan }
        ensures young { result.lost ≡ false → (r t : ℕ) → kept_of pass.new.kept.rows.items r ≡ some t → (view pass.new).pin.scan < t + 2 }
        ensures rounds { MakesRounds result (known pass.old) (known pass.new) pass.old.kept.rows.items pass.new.kept.rows.items }
        ensures only { IsOnly (known pass.old) → (result.lag ≡ None) × (result.losses ≡ 0) }
        ensures all { result.lag ≡ None → result.lost ≡ false → (view pass.new).pin.scan < last_epoch → result.kept ≡ 0 }
    {
        let mut freed = 0;
        let mut lag = None;
        let mut losses = 0;
        let mut epoch = 0;
        let mut left = 3;
        while left > 0 {
            let round = self.round(pass);
            freed += round.freed;
            lag = round.lag;
            losses += round.losses;
            epoch = round.epoch;
            left = rounds_left(left, round.more);
        }
        Reclaimed {
            freed,
            kept: pass.kept.len(),
            lag,
            lost: losses > 0,
            losses,
            epoch,
        }
    }
}

impl<R: RowRule> Space<R> {
    /// Looks at the others and moves the epoch where it may, so that the pass can take rows again that it keeps (`reuse_row`). Nothing is done where the
    /// row that was kept first is two epochs older than the last one, and the epoch stays where that row is two epochs older than it. No row is given
    /// back. It answers how many exchanges were lost: that of the epoch, or none. A pass that is the only one which the space is for loses none, and finds no
    /// pass that lags.
    pub fn advance(&self, pass: &mut Pass<R>) -> u32
        requires ready { MayReclaim self.now pass.old }
        ensures frame { KeepsList pass.old pass.new }
        ensures list { AreKept (sizes self.now).rows (view pass.new).claims pass.new.kept.rows }
        ensures reclaims { Reclaims (known pass.old) (known pass.new) }
        ensures losses { (view pass.new).lost ≡ (view pass.old).lost + result }
        ensures lags { (view pass.new).pin.lags ≤ (view pass.old).pin.lags + 1 }
        ensures aged { HasAged pass.old.kept.rows.items → known pass.new ≡ known pass.old }
        ensures only { IsOnly (known pass.old) → (result ≡ 0) × ((view pass.new).pin.lags ≡ (view pass.old).pin.lags) }
        ensures looked { ¬ HasAged pass.old.kept.rows.items → EndsLook result (known pass.old) (known pass.new) pass.old.kept.rows.items }
    {
        if pass.kept.has_aged() {
            return 0;
        }
        let epoch = self.table.shared.load::<Begin>(&mut pass.seat, 1);
        if pass.kept.is_old(0, epoch) || epoch == LAST_EPOCH {
            return 0;
        }
        if self.lagging(pass, epoch).is_some() || self.move_epoch(pass, epoch) {
            return 0;
        }
        1
    }
}

// How many rounds are left after one.
fn rounds_left(left: u32, more: bool) -> u32
    requires { 0 < left }
    ensures { result ≡ cond more (left - 1) 0 }
{
    if more { left - 1 } else { 0 }
}
