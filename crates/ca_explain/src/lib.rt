//! How a store's map of bytes stands for an ordered map of terms, and what the logs of several passes over one history explain.
#![tactic(auto)]

mod laws;

pub use laws::{alone_steps, logs_explain, pairs_are_objects, worked_merge};
