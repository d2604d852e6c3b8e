//! What beginnings of merges come to: a table of a list, and where each client stands.
use crate::place::{Place, copied};
use crate::player::put_reply;
use ca_ets::{Cmd, Cont, ListTable};
use ca_text::{print_term, put};
use std::alloc::{AllocError, Global};

/// A state, and its text, by which states of clients that play the same files are compared.
#[derive(Drop)]
pub(crate) struct State {
    table: ListTable,
    places: Vec<Place>,
    text: Vec<u8>,
}

/// A copy of a table.
pub(crate) fn table_copied(alloc: Global, table: &ListTable) -> Result<ListTable, AllocError> {
    let mut copy = ListTable::new(alloc, 1);
    for object in table.objects() {
        let cmd = Cmd::Insert(copied(alloc, object)?);
        copy.apply(alloc, &cmd, &mut Cont::Never)?;
    }
    Ok(copy)
}

/// Appends the text of a table's objects, as a list.
pub(crate) fn put_objects(table: &ListTable, into: &mut Vec<u8>) -> Result<(), AllocError> {
    put(b"[", into)?;
    let mut comma = false;
    for object in table.objects() {
        if comma {
            put(b",", into)?;
        }
        comma = true;
        print_term(object, into)?;
    }
    put(b"]", into)
}

impl State {
    /// The state of so many clients that have played nothing, on a copy of this table.
    pub(crate) fn start(
        alloc: Global,
        table: &ListTable,
        clients: usize,
    ) -> Result<State, AllocError> {
        let mut places = Vec::new(alloc);
        for _ in 0..clients {
            places.push(Place::start())?;
        }
        let table = table_copied(alloc, table)?;
        Ok(State {
            table,
            places,
            text: Vec::new(alloc),
        })
    }

    /// The text of the state.
    pub(crate) fn text(&self) -> &[u8] {
        self.text.as_slice()
    }

    /// The table.
    pub(crate) fn table(&self) -> &ListTable {
        &self.table
    }

    /// How many lines of a client were played.
    pub(crate) fn played(&self, client: usize) -> usize {
        match self.places.as_slice().get(client) {
            Some(place) => place.played(),
            None => 0,
        }
    }

    /// Plays the client's next command, one that only reads, if it is answered so; else nothing changes.
    pub(crate) fn reads(
        &mut self,
        alloc: Global,
        client: usize,
        cmd: &Cmd,
        answer: &[u8],
    ) -> Result<bool, AllocError> {
        let Some(place) = self.places.as_mut_slice().get_mut(client) else {
            return Ok(false);
        };
        let mut text = Vec::new(alloc);
        put_reply(self.table.apply(alloc, cmd, &mut Cont::Never)?, &mut text)?;
        if text.as_slice() != answer {
            return Ok(false);
        }
        place.count();
        Ok(true)
    }

    /// The state behind the client's next command, where that is answered so. Its text isn't written yet.
    pub(crate) fn after(
        &self,
        alloc: Global,
        client: usize,
        cmd: &Cmd,
        answer: &[u8],
    ) -> Result<Option<State>, AllocError> {
        let mut next = self.copied(alloc)?;
        let Some(place) = next.places.as_mut_slice().get_mut(client) else {
            return Ok(None);
        };
        let mut text = Vec::new(alloc);
        put_reply(place.play(alloc, &mut next.table, cmd)?, &mut text)?;
        if text.as_slice() == answer {
            Ok(Some(next))
        } else {
            Ok(None)
        }
    }

    fn copied(&self, alloc: Global) -> Result<State, AllocError> {
        let mut places = Vec::new(alloc);
        for place in self.places.as_slice() {
            places.push(place.copied(alloc)?)?;
        }
        let table = table_copied(alloc, &self.table)?;
        Ok(State {
            table,
            places,
            text: Vec::new(alloc),
        })
    }

    /// Writes its text.
    pub(crate) fn spell(&mut self) -> Result<(), AllocError> {
        self.text.clear();
        for place in self.places.as_slice() {
            place.put_text(&mut self.text)?;
        }
        put_objects(&self.table, &mut self.text)
    }
}
