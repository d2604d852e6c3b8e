//! A binary search in a line of any things, which are read through a source.
#![tactic(auto)]

mod line;

pub use line::{Line, find_among};
