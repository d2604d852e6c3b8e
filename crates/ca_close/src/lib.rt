//! What a closed tree has: its objects, in the order of their keys.
#![tactic(auto)]

mod listing;
mod objects;

pub use objects::Objects;
