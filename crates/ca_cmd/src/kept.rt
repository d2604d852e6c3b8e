//! How lines are kept: by where the text of each begins, or by the number before its draws. A command has some hundred bytes and up to ninety for each
//! character of its text, so it is made when it is asked for.
ghost use Rattle.std.specs.Prelude.{◌≡◌, ◌<◌, [], Some, IfOk, length};
ghost use Rattle.ca_ets.specs.Command.{Command};
ghost use Rattle.ca_cmd.specs.Adding.{may_add};
ghost use Rattle.ca_cmd.specs.Kept.{HoldsAt, IsAdded, IsFrom};
ghost use Rattle.ca_cmd.specs.declared.line.Line.{Line};

use crate::command::read_line;
use crate::cut::cut_line;
use crate::generator::drawn_command;
use ca_ets::Cmd;
use std::alloc::{AllocError, Global};

// A line that holds a command: its number, and where its text begins in the file, counted from 0, or the number before its draws.
#[derive(Clone, Copy)]
pub(crate) struct Place {
    pub number: u32,
    pub start: u32,
}

// What commands are made from: the text of a file, or the draws of the client of this number.
#[derive(Drop)]
pub(crate) enum Source {
    Text(Vec<u8>),
    Draws(u32),
}

// The lines that hold commands, in order, and how many of the commands may add an object.
#[derive(Drop)]
pub(crate) struct Held {
    pub places: Vec<Place>,
    pub adding: u32,
}

// Whether a command may add an object.
pub(crate) fn may_add(cmd: &Cmd) -> bool
    ensures { result ≡ may_add cmd.now }
{
    matches!(cmd, Cmd::Insert(_) | Cmd::InsertNew(_))
}

impl Held {
    pub(crate) fn new(alloc: Global) -> Held
        ensures places { result.places.items ≡ [] }
        ensures adding { result.adding ≡ 0 }
    {
        Held {
            places: Vec::new(alloc),
            adding: 0,
        }
    }

    // Keeps one more place, of a command that may add an object or may not.
    pub(crate) fn add(&mut self, place: Place, adds: bool) -> Result<(), AllocError>
        requires { self.old.adding < place.number }
        ensures { IfOk result (λ _. IsAdded place adds self.old self.new) }
    {
        let Ok(()) = self.places.push(place) else {
            return Err(AllocError);
        };
        if adds {
            self.adding += 1;
        }
        Ok(())
    }
}

// The command of the line that begins at this byte of a file. The line was read before, so want of memory alone keeps it from being read again.
fn command_in(alloc: Global, file: &[u8], start: u32) -> Result<Cmd, AllocError>
    requires { start < length file.now }
    ensures { (command : Command) → HoldsAt file.now start command → IfOk result (λ cmd. cmd ≡ command) }
{
    let (line, _) = cut_line(&file[start as usize..]);
    match read_line(alloc, line) {
        Ok(Some(cmd)) => Ok(cmd),
        Ok(None) | Err(_) => Err(AllocError),
    }
}

impl Source {
    // The command of the line that is kept at this place.
    pub(crate) fn command(&self, alloc: Global, place: Place) -> Result<Cmd, AllocError>
        requires { ∥ ((line : Line) × IsFrom self.now place line) ∥₁ }
        ensures { (line : Line) → IsFrom self.now place line → IfOk result (λ cmd. cmd ≡ line.cmd) }
    {
        match self {
            Source::Text(file) => command_in(alloc, file.as_slice(), place.start),
            Source::Draws(client) => drawn_command(alloc, *client, place.number, place.start),
        }
    }
}
