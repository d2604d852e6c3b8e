//! A gate at which two clients meet, for tests.
use crate::gate::Gate;
use ca_cmd::Answer;
use ca_ets::Reply;
use std::hint::spin_loop;
use std::sync::atomic::{AtomicBool, AtomicU8, Ordering};
use std::thread::yield_now;

// How often a client that waits looks for the other one. Between two looks it lets another thread run now and then.
const LOOKS: u32 = 100_000_000;

const LOOKS_BEFORE_A_YIELD: u32 = 1_000;

// What is known of one of the two clients: whether its first and its second line were begun, whether its first one was answered, and what was told of
// its first four.
#[derive(Drop)]
struct Visitor {
    came: AtomicBool,
    answered: AtomicBool,
    came_again: AtomicBool,
    told: [AtomicU8; 4],
}

impl Visitor {
    fn new() -> Visitor {
        Visitor {
            came: AtomicBool::new(false),
            answered: AtomicBool::new(false),
            came_again: AtomicBool::new(false),
            told: [
                AtomicU8::new(0),
                AtomicU8::new(0),
                AtomicU8::new(0),
                AtomicU8::new(0),
            ],
        }
    }

    // What was told of this line, counted from 1, where it is one of the first four.
    fn told_of(&self, line: u32) -> Option<&AtomicU8> {
        self.told.get((line as usize).wrapping_sub(1))
    }
}

/// A gate at which client 1 and client 2 meet: the first line of each is held until both have come to theirs, and the second line of each until the
/// first one of the other was answered. It notes what the first four lines of each were answered. Other clients and other lines pass. A client comes to a
/// line once: where one comes to its first or its second line again, they have not met.
#[derive(Drop)]
pub struct Rendezvous {
    one: Visitor,
    two: Visitor,
    gave_up: AtomicBool,
}

impl Rendezvous {
    /// A gate to which nobody has come.
    pub fn new() -> Rendezvous {
        Rendezvous {
            one: Visitor::new(),
            two: Visitor::new(),
            gave_up: AtomicBool::new(false),
        }
    }

    /// Whether both clients came to their first two lines, each once, and none gave up waiting for the other.
    pub fn met(&self) -> bool {
        let mut met = !self.gave_up.load(Ordering::SeqCst);
        for visitor in [&self.one, &self.two] {
            met = met && visitor.came.load(Ordering::SeqCst);
            met = met && visitor.came_again.load(Ordering::SeqCst);
        }
        met
    }

    /// What the line of this number of this client was answered: 1 for `true`, 2 for `false`, 3 for `refused deep`, 4 for anything else, and 0 where
    /// nothing was told, or the line isn't one of the first four of client 1 or 2.
    pub fn told(&self, client: u32, line: u32) -> u8 {
        let Some((own, _)) = self.own_and_other(client) else {
            return 0;
        };
        match own.told_of(line) {
            Some(told) => told.load(Ordering::SeqCst),
            None => 0,
        }
    }

    fn own_and_other(&self, client: u32) -> Option<(&Visitor, &Visitor)> {
        match client {
            1 => Some((&self.one, &self.two)),
            2 => Some((&self.two, &self.one)),
            _ => None,
        }
    }

    // Notes that a client has come. One that comes twice has not met the other one.
    fn come(&self, came: &AtomicBool) {
        if came.swap(true, Ordering::SeqCst) {
            self.gave_up.store(true, Ordering::SeqCst);
        }
    }

    // Waits until this holds, or gives up.
    fn wait_for(&self, holds: &AtomicBool) {
        for look in 0..LOOKS {
            if holds.load(Ordering::SeqCst) {
                return;
            }
            if look % LOOKS_BEFORE_A_YIELD == 0 {
                yield_now();
            } else {
                spin_loop();
            }
        }
        self.gave_up.store(true, Ordering::SeqCst);
    }
}

impl Gate for Rendezvous {
    fn before(&self, client: u32, line: u32) {
        let Some((own, other)) = self.own_and_other(client) else {
            return;
        };
        match line {
            1 => {
                self.come(&own.came);
                self.wait_for(&other.came);
            }
            2 => {
                self.come(&own.came_again);
                self.wait_for(&other.answered);
            }
            _ => {}
        }
    }

    fn after(&self, client: u32, line: u32, answer: &Answer) {
        let Some((own, _)) = self.own_and_other(client) else {
            return;
        };
        if let Some(told) = own.told_of(line) {
            told.store(number_of(answer), Ordering::SeqCst);
        }
        if line == 1 {
            own.answered.store(true, Ordering::SeqCst);
        }
    }
}

// The number that stands for an answer.
fn number_of(answer: &Answer) -> u8 {
    match answer {
        Answer::Replied(Reply::Truth(true)) => 1,
        Answer::Replied(Reply::Truth(false)) => 2,
        Answer::Deep => 3,
        _ => 4,
    }
}
