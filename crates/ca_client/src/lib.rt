//! Clients that play command lines on a table.
#![tactic(auto)]

mod clients;
mod following;
mod gate;
mod giving;
mod laws;
mod playing;
mod rendezvous;
mod running;
mod table;

pub use clients::{Client, play_all};
pub use gate::{Gate, OpenGate};
pub use laws::{lines_are_shared, logs_are_parts, runs_have_one_history};
pub use playing::play;
pub use rendezvous::Rendezvous;
pub use running::{Ran, run_clients};
pub use table::ClosedTable;
