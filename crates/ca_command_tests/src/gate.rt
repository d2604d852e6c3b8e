//! A gate at which clients wait for one another.
use std::hint::spin_loop;
use std::sync::atomic::{AtomicU64, Ordering};
use std::thread::{sleep, yield_now};
use std::time::{Clock, Duration};

// How often a client that waits looks, and how often it does so without sleep. It sleeps a millisecond each time, so it gives up after a minute.
const LOOKS: u32 = 70_000;

const SPINS: u32 = 8_000;

const YIELDS: u32 = 2_000;

/// How many clients came, each time that they came, and how many there are.
#[derive(Drop)]
pub(crate) struct Gate {
    came: AtomicU64,
    clients: u32,
}

impl Gate {
    /// A gate of so many clients.
    pub(crate) fn new(clients: u32) -> Gate {
        Gate {
            came: AtomicU64::new(0),
            clients,
        }
    }

    /// Comes, for the time of this number, counted from 1, and waits until all others came as often. False where one didn't.
    pub(crate) fn pass(&self, clock: &impl Clock, time: u32) -> bool {
        self.came.fetch_add(1, Ordering::SeqCst);
        let all = u64::from(self.clients).wrapping_mul(u64::from(time));
        for look in 0..LOOKS {
            if self.came.load(Ordering::SeqCst) >= all {
                return true;
            }
            match look {
                0..SPINS => spin_loop(),
                _ if look < SPINS + YIELDS => yield_now(),
                _ => sleep(clock, Duration::from_millis(1)),
            }
        }
        false
    }
}
