//! The store on the tree, which passes share without a lock.
#![tactic(auto)]

mod adapting;
mod aside;
mod attempting;
mod calls;
mod changing;
mod closing;
mod ending;
mod fault;
mod giving;
mod lasts;
mod laws;
mod looking;
mod missing;
mod opened;
mod past;
mod puts;
mod ranging;
mod reading;
mod refusing;
mod removing;
mod running;
mod store;
mod tree;
mod warming;
mod windows;
mod within;

pub use adapting::Last;
pub use closing::{CloseFault, Closed};
pub use fault::TreeFault;
pub use laws::{deep_comes_late, splits_by_commands, updates_by_commands};
pub use past::Past;
pub use store::TreeStore;
pub use tree::Tree;
