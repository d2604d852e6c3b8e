//! What any history demands of the replies of any number of clients.
use crate::events::{Entry, Event};
use std::alloc::{AllocError, Global};

// How many values there are, and how many of each client.
const VALUES: usize = 16_777_216;

const OF_CLIENT: u32 = 2_097_152;

/// How many objects came to a key by calls that found none, less those that were removed.
pub(crate) fn balance(log: &[Entry], key: u32) -> i64 {
    let mut balance = 0_i64;
    for entry in log {
        if entry.key == key {
            balance = balance.wrapping_add(change(entry.event));
        }
    }
    balance
}

// By how much a call changed the number of objects that a key has, where its answer tells it.
fn change(event: Event) -> i64 {
    match event {
        Event::PutNew(_) => 1,
        Event::Removed(Some(_)) => -1,
        _ => 0,
    }
}

/// How many calls raised a counter.
pub(crate) fn raises(log: &[Entry], key: u32) -> u32 {
    let mut count = 0_u32;
    for entry in log {
        if entry.key == key && matches!(entry.event, Event::Raised(Some(_))) {
            count = count.wrapping_add(1);
        }
    }
    count
}

/// Under which key each value was put, and which were removed.
#[derive(Drop)]
pub(crate) struct Values {
    // The key and 1, or 0.
    under: Vec<u32>,
    gone: Vec<bool>,
}

impl Values {
    pub(crate) fn new(alloc: Global) -> Result<Values, AllocError> {
        let under = vec![in alloc; 0_u32; VALUES]?;
        let gone = vec![in alloc; false; VALUES]?;
        Ok(Values { under, gone })
    }

    /// Notes what a client put.
    pub(crate) fn add(&mut self, log: &[Entry]) {
        for entry in log {
            if let Some(value) = entry.event.written() {
                if let Some(key) = self.under.as_mut_slice().get_mut(value as usize) {
                    *key = entry.key.wrapping_add(1);
                }
            }
        }
    }

    /// Whether a value was put under this key.
    pub(crate) fn is_under(&self, value: u32, key: u32) -> bool {
        match self.under.as_slice().get(value as usize) {
            Some(known) => *known == key.wrapping_add(1),
            None => false,
        }
    }

    /// Whether each value that a client found was put under its key, and none that it removed was removed before.
    pub(crate) fn explain(&mut self, log: &[Entry]) -> bool {
        for entry in log {
            let known = match entry.event {
                Event::Got(Some(value)) => self.is_under(value, entry.key),
                Event::Removed(Some(value)) => self.is_under(value, entry.key)
                    && self.remove(value),
                _ => true,
            };
            if !known {
                return false;
            }
        }
        true
    }

    /// Whether the value wasn't removed before.
    pub(crate) fn remove(&mut self, value: u32) -> bool {
        match self.gone.as_mut_slice().get_mut(value as usize) {
            Some(gone) => {
                let first = !*gone;
                *gone = true;
                first
            }
            None => false,
        }
    }
}

/// Whether a client never found an object of another client's earlier put under a key behind one of a later put. Each client's values rise.
pub(crate) fn is_rising(alloc: Global, log: &[Entry]) -> Result<bool, AllocError> {
    let mut last = vec![in alloc; 0_u32; 2_048]?;
    for entry in log {
        if let Event::Got(Some(value)) | Event::Removed(Some(value)) = entry.event {
            let place = value / OF_CLIENT * 256 + entry.key % 256;
            if let Some(before) = last.as_mut_slice().get_mut(place as usize) {
                if value < *before {
                    return Ok(false);
                }
                *before = value;
            }
        }
    }
    Ok(true)
}
