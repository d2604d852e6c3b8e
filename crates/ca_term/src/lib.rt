//! Terms of Erlang in this project's profile: 64-bit integers, atoms, tuples, lists and binaries, with their order.
#![tactic(auto)]

mod add;
mod bounds;
mod build;
mod code;
mod copy;
mod fault;
mod length;
mod order;
mod term;
mod terms;
mod update;
mod utf8;

pub use add::Add;
pub use bounds::{MOST_CODE_BYTES, MOST_CODE_POINTS, MOST_DEPTH, MOST_ELEMENTS};
pub use build::{atom, bin, bin_of, cons, int, list, nil, tuple};
pub use code::code_laws;
pub use copy::try_copy;
pub use fault::TermFault;
pub use length::{code_length, int_code_length};
pub use order::{order_laws, term_order};
pub use term::{Kind, Term};
pub use terms::Terms;
pub use update::update_laws;
pub use utf8::character;
