//! Where clients stand in their files.
ghost use Rattle.std.specs.Prelude.{◌≡◌, IfOk};
ghost use Rattle.ca_ets.specs.Command.{IsContinuation, continuation_of};

use ca_ets::{Cmd, Cont, ListTable, Reply};
use ca_term::{Term, try_copy};
use ca_text::{print_term, put, put_number};
use std::alloc::{AllocError, Global};
use std::marker::Model;

/// How many lines of a client were played, and where its batches stand. Contracts see the number of lines.
#[derive(Drop)]
pub(crate) struct Place {
    played: usize,
    cont: Cont,
}

impl Model for Place {
    ghost use Rattle.std.specs.Prelude.{ℕ};
    ghost use Rattle.ca_ets.specs.Command.{IsContinuation, continuation_of};

    ghost Value = { ℕ };

    ghost view = { λ place. place.played };

    ghost invariant = { λ place. IsContinuation (continuation_of place.cont) };
}

impl Place {
    /// The place of a client that has played nothing.
    pub(crate) fn start() -> Place {
        Place {
            played: 0,
            cont: Cont::Never,
        }
    }

    /// How many lines were played.
    pub(crate) fn played(&self) -> usize {
        self.played
    }

    /// Counts a line.
    pub(crate) fn count(&mut self) {
        self.played = self.played.saturating_add(1);
    }

    /// A copy.
    pub(crate) fn copied(&self, alloc: Global) -> Result<Place, AllocError> {
        let cont = cont_copied(alloc, &self.cont)?;
        Ok(Place {
            played: self.played,
            cont,
        })
    }

    /// Plays the client's next command.
    pub(crate) fn play(
        &mut self,
        alloc: Global,
        table: &mut ListTable,
        cmd: &Cmd,
    ) -> Result<Reply, AllocError> {
        self.count();
        table.apply(alloc, cmd, &mut self.cont)
    }

    /// Appends the text of the place. Of a continuation's batch the specification and the limit are those of the last line that began one.
    pub(crate) fn put_text(&self, into: &mut Vec<u8>) -> Result<(), AllocError> {
        put_number(self.played as u64, into)?;
        match &self.cont {
            Cont::Never => put(b" never;", into),
            Cont::AtEnd => put(b" at end;", into),
            Cont::At {
                spec: _,
                limit: _,
                key,
            } => {
                put(b" ", into)?;
                print_term(key, into)?;
                put(b";", into)
            }
        }
    }
}

/// A copy of a term.
pub(crate) fn copied(alloc: Global, term: &Term) -> Result<Term, AllocError>
    ensures { IfOk result (λ copy. copy ≡ term.now) }
{
    match try_copy(alloc, term) {
        Ok(copy) => Ok(copy),
        Err(_) => Err(AllocError),
    }
}

fn cont_copied(alloc: Global, cont: &Cont) -> Result<Cont, AllocError>
    requires { IsContinuation (continuation_of cont.now) }
    ensures { IfOk result (λ copy. IsContinuation (continuation_of copy)) }
{
    match cont {
        Cont::Never => Ok(Cont::Never),
        Cont::AtEnd => Ok(Cont::AtEnd),
        Cont::At { spec, limit, key } => {
            let (spec, key) = (copied(alloc, spec)?, copied(alloc, key)?);
            Ok(Cont::At {
                spec,
                limit: *limit,
                key,
            })
        }
    }
}
