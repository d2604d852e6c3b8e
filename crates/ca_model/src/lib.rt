//! Maps of bytes, their histories and logs, and stores of them.
#![tactic(auto)]

mod edge;
mod laws;
mod near;
mod outcome;
mod plain;
mod row;
mod rows;
mod run;
mod slab;
mod store;

pub use edge::Edge;
pub use laws::{cuts_begin, passes_meet};
pub use outcome::{Cause, Changed, Code, Counter, FullCause, Outcome, Spent};
pub use plain::Plain;
pub use store::OrderedStore;
