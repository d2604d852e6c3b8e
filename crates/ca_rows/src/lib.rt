//! Rows of words that passes share without a lock: a pool of free rows, and whose each row is.
#![tactic(auto)]

mod above;
mod close;
mod fault;
mod kept;
mod layout;
mod make;
mod opening;
mod pin;
mod plays;
mod pool;
mod reclaim;
mod reclaimed;
mod rest;
mod retire;
mod reuse;
mod rule;
mod sizes;
mod space;
mod taken;
mod tally;
mod view;
mod words;

pub use fault::RowsFault;
pub use kept::{Kept, KeptRows};
pub use layout::{
    LAST_EPOCH, LAST_SEQUENCE, LAST_TAG, PASS_WORDS, PASSES_WORDS, ROW_LIMIT, ROW_WORDS,
};
pub use reclaimed::Reclaimed;
pub use rule::{RowRule, Rows};
pub use sizes::{Sizes, Starts};
pub use space::{Half, Pass, Space};
pub use taken::Taken;
pub use tally::Tally;
pub use view::{Claim, Claimed, Met, Pin, Stage, View};
pub use words::Words;
