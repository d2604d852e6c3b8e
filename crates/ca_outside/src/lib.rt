//! Where files come from and where output goes.
#![tactic(auto)]

mod dir_shelf;
mod drawer;
mod fetch_log;
mod out_sink;
mod shelf;
mod sink;
mod tape;

pub use dir_shelf::DirShelf;
pub use drawer::{Drawer, SureDrawer};
pub use fetch_log::Fetch;
pub use out_sink::OutSink;
pub use shelf::{FetchFault, Shelf};
pub use sink::{Sink, SinkFailed, write_out};
pub use tape::{SureTape, Tape};
