//! When the tree splits and joins its bases.
#![tactic(auto)]

mod adapted;
mod carrying;
mod finishing;
mod joining;
mod looking;
mod marking;
mod splitting;
mod statistic;
mod trying;
mod tuning;

pub use adapted::{Adapted, Why};
pub use carrying::{Copies, Uniting, in_order, prepare, unite};
pub use finishing::{Finish, finish_join};
pub use joining::{Attempt, begin_attempt, mark_for};
pub use looking::{Fork, base_level, fork_at, look_aside};
pub use marking::{Marked, Pair};
pub use splitting::{first_attempt, split, try_split};
pub use statistic::{Due, statistic_of, word_of};
pub use trying::try_join;
pub use tuning::Tuning;
