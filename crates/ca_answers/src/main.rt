//! Answers the calls that the lines of its input name.
//!
//! `CALL` is answered by a line. Of `CALL => ANSWER` nothing is printed where the answer is this one, and else what came. Lines that begin with
//! `%` are comments. Where answers were wanted, the last line tells how many, and the exit status is 0 if all came.
#![tactic(auto)]

mod calls;
mod codes;
mod files;
mod repeats;
mod rows;
mod say;
mod specs;
mod terms;
mod texts;

use crate::rows::{Tally, take};
use std::io;
use std::io::{BufRead, BufReader, BufWriter, Write};
use std::process::ExitCode;

const ROOM: usize = 65_536;

fn main(rt: HostRuntime) -> io::Result<ExitCode> {
    let alloc = rt.alloc();
    let mut input = BufReader::with_capacity(alloc, ROOM, rt.reader())?;
    let mut output = BufWriter::with_capacity(alloc, ROOM, io::writer(&rt))?;
    let mut tally = Tally { rows: 0, wrong: 0 };
    let mut line = Vec::new(alloc);
    for number in 1..u64::MAX {
        // Who wrote a few lines may wait for their answers before it writes more.
        if input.buffer().is_empty() {
            output.flush()?;
        }
        line.clear();
        if input.read_until(b'\n', &mut line)? == 0 {
            break;
        }
        let told = take(alloc, number, line.as_slice(), &mut tally);
        output.write_all(told.as_slice())?;
    }
    if tally.rows > 0 {
        writeln!(output, "{} rows, {} wrong", tally.rows, tally.wrong)?;
    }
    output.flush()?;
    Ok(if tally.wrong == 0 {
        ExitCode::SUCCESS
    } else {
        ExitCode::FAILURE
    })
}
