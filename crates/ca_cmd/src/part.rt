//! A part of a command file, from where a line begins to where another one does.
ghost use Rattle.std.specs.Prelude.{◌≡◌, ◌≤◌, ◌<◌, ◌+◌, [], length, IfOk, IfErr, OnOk};
ghost use Rattle.ca_cmd.specs.Kept.{IsTaken};
ghost use Rattle.ca_cmd.specs.Parts.{IsFaultFrom, IsJoined, IsPart};
ghost use Rattle.ca_cmd.specs.Refusal.{IsCauseAt};

use crate::command::read_line;
use crate::cut::cut_line;
use crate::fault::{FileFault, LineFault};
use crate::kept::{Held, Place, may_add};
use std::alloc::{AllocError, Global};

// A part of a file that was read: its lines that hold commands, and what stands in the file before its end: so many lines, and so many bytes.
#[derive(Drop)]
pub(crate) struct Part {
    pub held: Held,
    pub lines: u32,
    pub end: u32,
}

impl Part {
    // The part at the front of a file that has no line.
    pub(crate) fn none(alloc: Global) -> Part
        ensures places { result.held.places.items ≡ [] }
        ensures adding { result.held.adding ≡ 0 }
        ensures lines { result.lines ≡ 0 }
        ensures end { result.end ≡ 0 }
    {
        Part {
            held: Held::new(alloc),
            lines: 0,
            end: 0,
        }
    }

    // Adds the part that begins where this one ends.
    pub(crate) fn add(&mut self, behind: &Part) -> Result<(), AllocError>
        requires { self.old.held.adding + behind.now.held.adding ≤ 4294967295 }
        ensures { OnOk result (IsJoined self.old behind.now self.new) }
    {
        self.held
            .places
            .extend_from_slice(behind.held.places.as_slice())?;
        self.held.adding += behind.held.adding;
        self.lines = behind.lines;
        self.end = behind.end;
        Ok(())
    }
}

// Reads the line at this place, and keeps the place if the line holds a command. The command itself is let go.
fn take_line(alloc: Global, place: Place, line: &[u8], held: &mut Held) -> Result<(), FileFault>
    requires { held.old.adding < place.number }
    ensures taken { IfOk result (λ _. IsTaken place line.now held.old held.new) }
    ensures refused { IfErr result (λ e. IsCauseAt place.number line.now e) }
{
    match read_line(alloc, line) {
        Ok(None) => Ok(()),
        Ok(Some(cmd)) => Ok(held.add(place, may_add(&cmd))?),
        Err(LineFault::Refused { at, why }) => Err(FileFault::BadLine {
            line: place.number,
            at,
            why,
        }),
        Err(LineFault::NoMemory) => Err(FileFault::NoMemory),
    }
}

// Reads the lines of a file that begin from one byte on and before another one, as they are where a line begins at that byte and so many stand before it.
pub(crate) fn read_part(
    alloc: Global,
    file: &[u8],
    from: usize,
    before: u32,
    to: usize,
) -> Result<Part, FileFault>
    requires size { length file.now ≤ 16777216 }
    requires place { (before ≤ from) × (from ≤ to) × (to ≤ length file.now) }
    ensures read { IfOk result (λ part. IsPart file.now from before part) }
    ensures reached { IfOk result (λ part. to ≤ part.end) }
    ensures refused { IfErr result (λ e. IsFaultFrom file.now from before e) }
{
    let mut held = Held::new(alloc);
    let mut rest = &file[from..];
    let mut number = before;
    while rest.len() > file.len() - to {
        number += 1;
        let start = (file.len() - rest.len()) as u32;
        let (line, others) = cut_line(rest);
        take_line(alloc, Place { number, start }, line, &mut held)?;
        rest = others;
    }
    Ok(Part {
        held,
        lines: number,
        end: (file.len() - rest.len()) as u32,
    })
}
