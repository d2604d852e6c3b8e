//! What calls did to one key, and what they were answered.

/// What a call of one key came to. A value is that of an object.
#[derive(Clone, Copy)]
pub(crate) enum Event {
    /// It found this object, or none.
    Got(Option<u32>),
    /// It put an object.
    Put(u32),
    /// It put an object where there was none.
    PutNew(u32),
    /// It found an object, where it would have put one if there was none.
    NotNew,
    /// It removed this object, or found none.
    Removed(Option<u32>),
    /// It put the object of the next value in the place of this one, or found none.
    Raised(Option<u32>),
}

impl Event {
    /// What the key has behind the event where it had this before; `None` where the event can't be then.
    pub(crate) fn follows(self, before: Option<u32>) -> Option<Option<u32>> {
        match self {
            Event::Got(found) => then(found == before, before),
            Event::Put(value) => Some(Some(value)),
            Event::PutNew(value) => then(before.is_none(), Some(value)),
            Event::NotNew => then(before.is_some(), before),
            Event::Removed(found) => then(found == before, None),
            Event::Raised(found) => then(found == before, next(before)),
        }
    }

    /// The value that it put, if it put one.
    pub(crate) fn written(self) -> Option<u32> {
        match self {
            Event::Put(value) | Event::PutNew(value) => Some(value),
            Event::Raised(found) => next(found),
            Event::Got(_) | Event::NotNew | Event::Removed(_) => None,
        }
    }
}

/// An event of a key.
#[derive(Clone, Copy)]
pub(crate) struct Entry {
    pub key: u32,
    pub event: Event,
}

// This state, where it can be.
fn then(can: bool, state: Option<u32>) -> Option<Option<u32>> {
    if can { Some(state) } else { None }
}

// The next value.
fn next(value: Option<u32>) -> Option<u32> {
    match value {
        Some(value) => Some(value.wrapping_add(1)),
        None => None,
    }
}
