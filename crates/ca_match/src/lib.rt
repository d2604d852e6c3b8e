//! Match specifications of Erlang's `ets`: which terms are ones, the operators of their guards, and what one makes of an object.
#![tactic(auto)]

mod gathering;
mod matcher;
mod number;
mod operator;
mod part;
mod specification;
mod value;
mod variable;

pub use gathering::{push, push_copy};
pub use matcher::match_result;
pub use operator::Operator;
pub use part::{cell_parts, tuple_items};
pub use specification::is_specification;
pub use value::{Value, truth, truth_value, value_order};
pub use variable::variable_number;
