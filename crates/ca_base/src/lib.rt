//! A base and its objects: keys are looked for in a base that a pass was shown, rows are taken and written, and a new base takes the place of an
//! old one.
#![tactic(auto)]

mod comparing;
mod copies;
mod copying;
mod lending;
mod place;
mod prefixes;
mod reading;
mod removing;
mod routing;
mod spending;
mod splitting;
mod stop;
mod swapping;
mod taking;
mod target;
mod uniting;
mod updating;
mod writing;

pub use copies::write_copy;
pub use lending::retire_border;
pub use place::search;
pub use reading::{append, copy_object, count, item, statistic_word};
pub use removing::remove_at;
pub use spending::lose;
pub use splitting::split_at;
pub use stop::{Exchange, Stop};
pub use swapping::{STATISTIC, retire_unlinked};
pub use taking::{give_back, take, take_two};
pub use target::{Insertion, Keyed, Removal, Target};
pub use uniting::{items_of, write_joined};
pub use updating::{Putting, put_at};
pub use writing::{set_word, write_bytes, write_words};
