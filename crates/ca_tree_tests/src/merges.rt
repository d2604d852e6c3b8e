//! Whether some merge of two clients' events of one key explains all of them.
use crate::events::{Entry, Event};
use std::alloc::{AllocError, Global};

// What the key may have where so many events of each client came: nothing, what the first one put last, what the second one put last.
#[derive(Clone, Copy)]
struct May {
    nothing: bool,
    first: bool,
    second: bool,
}

const NEVER: May = May {
    nothing: false,
    first: false,
    second: false,
};

const START: May = May {
    nothing: true,
    first: false,
    second: false,
};

// What each of two clients put last.
#[derive(Clone, Copy)]
struct Last {
    first: Option<u32>,
    second: Option<u32>,
}

impl May {
    // Whether it may have this.
    fn has(self, state: Option<u32>, last: Last) -> bool {
        match state {
            None => self.nothing,
            Some(_) => { self.first && last.first == state || self.second && last.second == state }
        }
    }

    // It may have this, too.
    fn or(self, state: Option<u32>, last: Last) -> May {
        match state {
            None => May {
                nothing: true,
                ..self
            },
            Some(_) => May {
                first: self.first || last.first == state,
                second: self.second || last.second == state,
                ..self
            },
        }
    }

    // What it may have behind an event, where the clients put these last, before the event and behind it.
    fn behind(self, event: Event, before: Last, behind: Last) -> May {
        let mut may = NEVER;
        for state in [None, before.first, before.second] {
            if self.has(state, before) {
                if let Some(next) = event.follows(state) {
                    may = may.or(next, behind);
                }
            }
        }
        may
    }

    fn both(self, other: May) -> May {
        May {
            nothing: self.nothing || other.nothing,
            first: self.first || other.first,
            second: self.second || other.second,
        }
    }
}

/// The events of a key in a log.
pub(crate) fn events_of(alloc: Global, log: &[Entry], key: u32) -> Result<Vec<Event>, AllocError> {
    let mut events = Vec::new(alloc);
    for entry in log {
        if entry.key == key {
            events.push(entry.event)?;
        }
    }
    Ok(events)
}

// Goes along the second client's events: from what the key may have before each of them, `row`, to what it may have behind the first client's
// next event, if there is one.
fn along(row: &mut [May], event: Option<Event>, mut last: Last, second: &[Event]) {
    let written = match event {
        Some(event) => event.written(),
        None => None,
    };
    let mut left = NEVER;
    for place in 0..row.len() {
        let next = Last {
            first: written.or(last.first),
            ..last
        };
        let above = match event {
            Some(event) => row[place].behind(event, last, next),
            None => row[place],
        };
        let may = above.both(left);
        row[place] = may;
        if let Some(event) = second.get(place) {
            let then = Last {
                second: event.written().or(next.second),
                ..next
            };
            left = may.behind(*event, next, then);
            last.second = then.second;
        }
    }
}

/// Whether some merge of these events of a key that has no object at first explains each of them and what the key has in the end.
pub(crate) fn is_explained(
    alloc: Global,
    first: &[Event],
    second: &[Event],
    end: Option<u32>,
) -> Result<bool, AllocError> {
    let mut row = vec![in alloc; NEVER; second.len().saturating_add(1)]?;
    if let Some(start) = row.as_mut_slice().get_mut(0) {
        *start = START;
    }
    let mut last = Last {
        first: None,
        second: None,
    };
    along(row.as_mut_slice(), None, last, second);
    for event in first {
        along(row.as_mut_slice(), Some(*event), last, second);
        last.first = event.written().or(last.first);
    }
    for event in second {
        last.second = event.written().or(last.second);
    }
    Ok(match row.as_slice().last() {
        Some(may) => may.has(end, last),
        None => false,
    })
}
