//! Command files, and answers as text.
#![tactic(auto)]

mod answer;
mod answers;
mod argument;
mod at_once;
mod coded;
mod command;
mod cut;
mod fault;
mod generator;
mod kept;
mod laws;
mod line;
mod output;
mod part;
mod reading;
mod word;

pub use answer::{Answer, show_reply};
pub use answers::Answers;
pub use fault::{FileFault, LineWhy};
pub use generator::generate;
pub use laws::{file_laws, lines_cross};
pub use line::{Line, Lines, MOST_LINE_BYTES};
pub use output::{show_answer, show_client, show_end, show_object, show_start, show_table};
pub use reading::{read_file, read_on_threads};
