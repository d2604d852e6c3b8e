//! Ranges of the tree: a pass that meets a base which another pass's range marked helps that range to its end.
#![tactic(auto)]

mod account;
mod ahead;
mod along;
mod clearing;
mod copying;
mod counting;
mod deciding;
mod edging;
mod filling;
mod gathering;
mod going;
mod helped;
mod helping;
mod joins;
mod looking;
mod marking;
mod marks;
mod opening;
mod own;
mod reaching;
mod settling;
mod snapping;
mod sought;
mod using;
mod watching;

pub use account::{Account, Met, Range};
pub use clearing::{Way, clear};
pub use edging::{place_from, place_to};
pub use filling::range_in_use;
pub use gathering::{Further, gather, go_further};
pub use helped::Helped;
pub use helping::help_ranges;
pub use marks::{MarkedBase, range_of};
pub use own::{Gathered, Own};
pub use reaching::copy_key;
pub use settling::give_up;
pub use snapping::{begin_snapshot, snapshot};
pub use sought::{Run, Search, Snapped, Sought};
pub use watching::{finish, watch};
