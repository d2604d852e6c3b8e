//! The words of the program's command line.
#![tactic(auto)]

mod fault;
mod options;
mod tree;
mod words;

pub use fault::fault_in;
pub use tree::TreeOptions;
pub use words::{CommandLine, Request, command_line_of};
