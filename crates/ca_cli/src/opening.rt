//! The tree that the clients of a call share.
ghost use Rattle.std.specs.Prelude.{◌≡◌, ◌≤◌, ◌*◌, length, map, IfOk};
ghost use Rattle.ca_adapt.specs.Allowed.{IsAllowed};
ghost use Rattle.ca_cmd.specs.File.{commands_in};
ghost use Rattle.ca_cmd.specs.Lines.{numbered};
ghost use Rattle.ca_term.specs.declared.bounds.TheConstants.{MOST_ELEMENTS};
ghost use Rattle.ca_words.specs.Grammar.{IsWithin};
ghost use Rattle.ca_cli.specs.Opening.{IsOpened, count_of_adding, default_rows, rows_of, tuning_of};

use ca_adapt::Tuning;
use ca_cmd::Lines;
use ca_replace::{Tree, TreeFault};
use ca_rows::Starts;
use ca_words::TreeOptions;
use std::alloc::{AllocError, Global};

// With which numbers the counters of a tree begin.
const STARTS: Starts = Starts {
    tag: 0,
    epoch: 0,
    sequence: 0,
    attempt: 0,
};

// How many commands of all clients may add an object.
fn adding(files: &[Lines]) -> u128
    requires { length files.now ≤ 64 }
    ensures count { result ≡ count_of_adding (map commands_in (map numbered files.now)) }
    ensures few { result ≤ 64 * 4294967295 }
{
    let mut count = 0;
    for lines in files {
        count += u128::from(lines.adding());
    }
    count
}

// How many rows a tree has for so many of them. More than the most rows of a tree are never asked for.
fn default_rows(adding: u128) -> u32
    requires { adding ≤ 64 * 4294967295 }
    ensures { result ≡ default_rows adding }
{
    let rows = adding + adding / 8 + 4_096;
    rows.max(65_535).min(16_777_215) as u32
}

fn rows_of(options: TreeOptions, files: &[Lines]) -> u32
    requires { length files.now ≤ 64 }
    ensures { result ≡ rows_of options (map commands_in (map numbered files.now)) }
{
    match options.rows {
        Some(rows) => rows,
        None => default_rows(adding(files)),
    }
}

fn tuning_of(options: TreeOptions) -> Tuning
    requires { IsWithin options }
    ensures tuning { result ≡ tuning_of options }
    ensures allowed { IsAllowed result }
{
    let heat = options.heat.unwrap_or(0) as i32;
    let calm = options.calm.unwrap_or(1) as i32;
    let low = options.low.unwrap_or(1_000) as i32;
    Tuning {
        leaf: options.leaf.unwrap_or(64) as u8,
        levels: options.levels.unwrap_or(4_096) as u16,
        lost: 250,
        calm: heat - calm,
        range: -100,
        high: options.high.unwrap_or(1_000) as i32,
        low: -low,
    }
}

/// The tree that the clients of a call share, empty, for as many passes as there are files; `Err` where memory lacks. `keypos` is which element
/// of an object is its key, counted from 1, and `files` are the clients' commands.
///
/// The tree is as the options say. Where they don't say it, it has 65,535 rows, or as many as the commands that may add an object, an eighth of
/// them and 4,096 where that is more, at most 16,777,215; it has 4,096 levels, and a base has at most 64 objects. A base is split where its
/// statistic is above 1,000, and joined where it is below -1,000. A lost exchange adds 250 to the statistic, a range that goes on past the base
/// takes 100 from it, and an update takes the calm, 1, and adds the heat, 0. Source: the defaults are this project's own.
pub fn open_tree(
    alloc: Global,
    keypos: u32,
    options: TreeOptions,
    files: &[Lines],
) -> Result<Tree, AllocError>
    requires key { (1 ≤ keypos) × (keypos ≤ MOST_ELEMENTS) }
    requires clients { (1 ≤ length files.now) × (length files.now ≤ 64) }
    requires within { IsWithin options }
    ensures made { IfOk result (λ tree. IsOpened keypos options (map commands_in (map numbered files.now)) tree) }
{
    let rows = rows_of(options, files);
    let tuning = tuning_of(options);
    match Tree::new(alloc, rows, files.len() as u32, keypos, tuning, STARTS) {
        Ok(tree) => Ok(tree),
        Err(TreeFault::NoMemory) => Err(AllocError),
        Err(_) => unreachable!(),
    }
}
