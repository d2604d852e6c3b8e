//! A store that plays a script: of which edits of others each call learns, and which calls are refused.
#![tactic(auto)]

mod foreign;
mod inner;
mod refusal;
mod scripted;
mod tally;
mod turn;

pub use foreign::Foreign;
pub use refusal::Refusal;
pub use scripted::Scripted;
pub use turn::Turn;
