//! Which objects a match specification can give a result: those of one key, or any.
#![tactic(auto)]

mod answer;
mod clauses;
mod fixed;

pub use answer::Plan;
pub use clauses::plan;
