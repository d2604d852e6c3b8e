//! The calls of an `ordered_set` of Erlang's `ets`: commands, replies, the step of one thread, and what explains many
//! clients' answers.
#![tactic(auto)]

mod change;
mod command;
mod laws;
mod object;
mod selection;
mod table;
mod update;

pub use command::{Cmd, Cont, Fault, Reply};
pub use laws::{
    commands_cross, no_commands, no_files, one_client, steps_keep, tables_stay_ordered,
};
pub use table::ListTable;
pub use update::{Operations, element, reply_of};
