//! What follows from the definitions alone.
ghost use Rattle.ca_table.specs.ComesTo.{SureAndAloneIsDone, SureAndAloneIsDoneFrom};

use crate::follower::Follower;
use crate::table::Table;
use ca_model::OrderedStore;

/// Over a store that refuses nothing and that nobody else edits, each call of a table answers `Done` or `Err`.
pub fn sure_and_alone_is_done()
    ensures { SureAndAloneIsDone }
{}

/// The same of each call of a client whose batches may move.
pub fn sure_and_alone_is_done_from()
    ensures { SureAndAloneIsDoneFrom }
{}

/// A table may be handed to another thread where its store and its follower may.
pub fn tables_cross<S: OrderedStore + Drop + Send, W: Follower<S> + Send>() {
    may_cross::<Table<S, W>>();
}

fn may_cross<T: Send>() {}
