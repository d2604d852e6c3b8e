//! What a client does for the others at its end: it gives back the rows that its store keeps.
ghost use Rattle.std.specs.Prelude.{◌≡◌};

use crate::playing::{MOST_WAITS, pause};
use ca_model::OrderedStore;
use ca_replace::TreeStore;
use ca_table::{Follower, Table, Upkeep};
use std::sync::atomic::{AtomicUsize, Ordering};

/// Gives rows back, and does so again where another pass lags, or has just taken or put one.
pub(crate) struct GivesRowsBack;

impl<'t> Upkeep<TreeStore<'t>> for GivesRowsBack {
    fn tend(&self, store: &mut TreeStore<'t>) -> bool {
        let given = store.give_back();
        given.lag.is_some() || given.lost
    }
}

/// Tends a client's store until nothing more comes of it, or nobody plays any more, some 1,000 times at most. Between two times other threads run.
pub(crate) fn give_back<S: OrderedStore + Drop, W: Follower<S>, U: Upkeep<S>>(
    table: &mut Table<S, W>,
    upkeep: &U,
    playing: &AtomicUsize,
)
    ensures { S.knows table.new ≡ S.knows table.old }
{
    for waits in 0..MOST_WAITS {
        if playing.load(Ordering::SeqCst) == 0 || !table.tend(upkeep) {
            return;
        }
        pause(waits + 1);
    }
}
