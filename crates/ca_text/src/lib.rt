//! The text of terms in Erlang's notation: printing it, and reading it.
#![tactic(auto)]

mod atom;
mod binary;
mod bounds;
mod character;
mod fault;
mod parts;
mod print;
mod read;
mod scan;
mod writer;

pub use atom::{is_reserved, put_atom};
pub use binary::put_binary;
pub use bounds::MOST_LEVELS;
pub use fault::TextFault;
pub use print::{print_term, put_integer, text_laws};
pub use read::{read_laws, read_term};
pub use scan::skip;
pub use writer::{put, put_number};
