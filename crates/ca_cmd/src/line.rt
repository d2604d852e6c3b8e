//! The lines of a command file.
ghost use Rattle.std.specs.Prelude.{◌≡◌, ◌↔◌, ◌<◌, List, [], length, slice_get, option_map, Some, IsTrue, IfOk};
ghost use Rattle.std.specs.Coded.{codes};
ghost use Rattle.ca_term.specs.contracts.term.Term as term;
ghost use Rattle.ca_cmd.specs.Adding.{adding_in};
ghost use Rattle.ca_cmd.specs.File.{commands_in};
ghost use Rattle.ca_cmd.specs.Kept.{IsFrom, Keeps};
ghost use Rattle.ca_cmd.specs.Lines.{numbered};
ghost use Rattle.ca_cmd.specs.Sole.{Sole, Sole-prop};
ghost use Rattle.ca_cmd.specs.declared.line.Line.{Line};

use crate::kept::{Held, Source};
use ca_ets::Cmd;
use std::alloc::{AllocError, Global};
use std::marker::Model;

/// How many bytes a line may have, without its end. Source: the rules of command files are this project's own.
pub const MOST_LINE_BYTES: usize = 8192;

/// A command, with the number of its line, counted from 1.
#[derive(Drop)]
pub struct Line {
    pub number: u32,
    pub cmd: Cmd,
}

/// The lines of a file that hold commands, in order. Contracts see them as a list of lines. Their text is kept, and a command is made from it when its
/// line is asked for.
#[derive(Drop)]
pub struct Lines {
    source: Source,
    held: Held,
    ghost keeps: { Sole (List Line) (Keeps (IsFrom source) held) } by { Sole-prop (Keeps (IsFrom source) held) (Prim.hlevel (codes, term.the_row.coded)) },
}

impl Model for Lines {
    ghost use Rattle.std.specs.Prelude.{List};
    ghost use Rattle.ca_cmd.specs.declared.line.Line.{Line};
    ghost use Rattle.std.specs.Coded.{codes};
    ghost use Rattle.ca_term.specs.contracts.term.Term as term;

    ghost Value = { List Line };

    ghost coded = { Prim.hlevel (codes, term.the_row.coded) };

    ghost view = { λ a. a.keeps.0 };
}

impl Lines {
    // The lines that are kept so.
    pub(crate) fn of(source: Source, held: Held) -> Lines
        requires { (lines : List Line) × Keeps (IsFrom source) held lines }
        ensures { (lines : List Line) → Keeps (IsFrom source) held lines → result ≡ lines }
    {
        Lines { source, held }
    }

    /// How many lines there are.
    pub fn len(&self) -> usize
        ensures { result ≡ length self.now }
    {
        self.held.places.len()
    }

    /// Whether there are none.
    pub fn is_empty(&self) -> bool
        ensures { IsTrue result ↔ (self.now ≡ []) }
    {
        self.len() == 0
    }

    /// How many of the commands may add an object: each `insert` and each `insert_new`.
    pub fn adding(&self) -> u32
        ensures { result ≡ adding_in (commands_in (numbered self.now)) }
    {
        self.held.adding
    }

    /// The number of the line at this place, counted from 0.
    pub fn number(&self, at: usize) -> u32
        requires { at < length self.now }
        ensures { option_map (λ line. line.number) (slice_get self.now at) ≡ Some result }
    {
        self.held.places[at].number
    }

    /// The line at this place, counted from 0, with its command, which is made for the caller. `Err` where memory wasn't found.
    pub fn line(&self, alloc: Global, at: usize) -> Result<Line, AllocError>
        requires { at < length self.now }
        ensures { IfOk result (λ line. slice_get self.now at ≡ Some line) }
    {
        let place = self.held.places[at];
        let cmd = self.source.command(alloc, place)?;
        Ok(Line {
            number: place.number,
            cmd,
        })
    }

    /// All lines with their commands. `Err` where memory wasn't found.
    pub fn to_vec(&self, alloc: Global) -> Result<Vec<Line>, AllocError>
        ensures { IfOk result (λ lines. lines.items ≡ self.now) }
    {
        let mut lines = Vec::new(alloc);
        for at in 0..self.len() {
            let line = self.line(alloc, at)?;
            let Ok(()) = lines.push(line) else {
                return Err(AllocError);
            };
        }
        Ok(lines)
    }
}
