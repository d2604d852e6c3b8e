//! Times calls by the clock. With no words it prints nothing; `point-calls` prints a line for each kind of call on a table of 10,000 objects over
//! a plain store, `selections` a line for a match specification on 1,000 objects, and `walks` a line for each kind of walk, selection and batch on
//! tables of three sizes, `choices` one for each share of objects that a selection chooses, and `stores` two for each kind of work of one client, that
//! of a plain store and that of a tree; `threads` prints a line for each mix of calls of clients on 1, 2 and 4 threads, on trees that are one leaf,
//! `tree` the same on a tree that grows to many leaves, `tree,mixed,10000,4` the one of these lines that begins so, and `rows` how many objects fit
//! into a tree. `bench/table.sh`, `bench/select.sh`, `bench/walks.sh`, `bench/choices.sh`,
//! `bench/stores.sh`, `bench/threads.sh` and `bench/tree.sh` run it beside others that do the same.
#![tactic(auto)]

mod choices;
mod coded;
mod draws;
mod load;
mod numbers;
mod player;
mod point_calls;
mod ranges;
mod rows;
mod selections;
mod stores;
mod threads;
mod trees;
mod walks;

use crate::choices::time_choices;
use crate::point_calls::time_point_calls;
use crate::rows::time_rows;
use crate::selections::time_selections;
use crate::stores::time_stores;
use crate::threads::time_threads;
use crate::trees::{time_named, time_trees};
use crate::walks::time_walks;
use std::{env, io};

fn main(rt: HostRuntime) -> io::Result<()> {
    for word in env::args(&rt)?.skip(1) {
        match word.as_str() {
            "choices" => time_choices(&rt)?,
            "point-calls" => time_point_calls(&rt)?,
            "rows" => time_rows(&rt)?,
            "selections" => time_selections(&rt)?,
            "stores" => time_stores(&rt)?,
            "threads" => time_threads(&rt)?,
            "tree" => time_trees(&rt)?,
            "walks" => time_walks(&rt)?,
            line => time_named(&rt, line)?,
        }
    }
    Ok(())
}
