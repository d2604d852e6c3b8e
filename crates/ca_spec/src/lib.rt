//! Match specifications of Erlang's `ets`, compiled once and applied to many objects.
#![tactic(auto)]

mod clause;
mod compiler;
mod constant;
mod evaluation;
mod expression;
mod expressions;
mod fault;
mod fitted;
mod fitting;
mod found;
mod heads;
mod held;
mod matching;
mod on_codes;
mod pattern;
mod quick;
mod results;
mod scope;
mod sieve;
mod spec;

pub use compiler::compile;
pub use fault::{SpecFault, SpecWhy};
pub use found::Found;
pub use on_codes::{apply_code, chooses, told_by_code};
pub use results::apply;
pub use sieve::Sieve;
pub use spec::Spec;
