//! The calls of an `ordered_set` of Erlang's `ets` over any store of bytes.
#![tactic(auto)]

mod batch;
mod codes;
mod follower;
mod kept;
mod laws;
mod listing;
mod outcome;
mod reply;
mod results;
mod run;
mod select;
mod table;
mod update;
mod upkeep;

pub use follower::{Follower, Unfollowed};
pub use laws::{sure_and_alone_is_done, sure_and_alone_is_done_from, tables_cross};
pub use listing::{objects, term_of};
pub use outcome::Played;
pub use table::Table;
pub use upkeep::Upkeep;
