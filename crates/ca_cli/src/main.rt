//! `ca run [OPTIONS] [--] FILE...`: reads command files, runs their commands on one table that behaves as an `ordered_set` of Erlang's
//! `ets`, a file a client and each client on a thread of its own, and prints every answer and the final table. `ca run --seed S --clients C
//! --lines L` makes the commands itself, and prints a summary. Where a call ends early, standard error tells a person why.
#![tactic(auto)]

ghost use Rattle.std.specs.Prelude.{◌≡◌, IfErr};

mod answer;
#[cfg(test)]
mod calls;
mod explain;
mod files;
mod lines;
mod message;
mod opening;
mod printed;
mod progress;
mod status;
mod summary;
mod top;

use crate::explain::tell;
use crate::progress::Progress;
use crate::status::{Status, finish};
use crate::top::run;
use ca_outside::{DirShelf, OutSink};
use std::mem::forget;
use std::process::ExitCode;
use std::{env, io};

// The words after the program's name. Where one isn't text there is no command line: no words stand for that.
fn words_given(rt: &HostRuntime) -> Result<Vec<String>, Status>
    ensures { IfErr result (λ status. status ≡ Status.NoMemory) }
{
    let mut words = Vec::new(rt.alloc());
    match env::args(rt) {
        Ok(args) => {
            for word in args.skip(1) {
                let Ok(()) = words.push(word) else {
                    return Err(Status::NoMemory);
                };
            }
            Ok(words)
        }
        Err(e) if e.kind() == io::ErrorKind::InvalidData => Ok(words),
        Err(_) => Err(Status::NoMemory),
    }
}

fn main(rt: HostRuntime) -> ExitCode {
    let status = match words_given(&rt) {
        Ok(words) => {
            let mut shelf = DirShelf::new(rt.alloc(), &rt);
            let mut sink = OutSink::new(io::writer(&rt));
            let gate = Progress::new(&rt);
            let mut ran = None;
            let status = run(
                &rt,
                rt.alloc(),
                words.as_slice(),
                &mut shelf,
                &mut sink,
                &gate,
                &mut ran,
            );
            tell(&rt, words.as_slice(), status);
            // The process ends, and its memory with it: answers aren't let go one by one.
            forget(ran);
            status
        }
        Err(status) => {
            tell(&rt, &[], status);
            status
        }
    };
    finish(status)
}
