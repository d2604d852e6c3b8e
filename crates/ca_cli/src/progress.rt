//! How far the clients are, told on standard error. Contracts say nothing of it.
use ca_client::Gate;
use ca_cmd::Answer;
use std::io::IsTerminal;
use std::sync::atomic::{AtomicU64, Ordering};
use std::time::Instant;

// How many milliseconds lie between two of its lines at least.
const BETWEEN: u64 = 1_000;

/// A gate that tells how many lines of how many were answered so far, at most once a second, where standard error is a terminal. Elsewhere, and where no
/// clock is to be had, it does nothing.
#[derive(Drop)]
pub struct Progress<'r> {
    rt: &'r HostRuntime,
    // when the first client began; none where nothing is told
    start: Option<Instant>,
    lines: AtomicU64,
    answered: AtomicU64,
    // the milliseconds from the start to the last telling
    told_at: AtomicU64,
}

impl Progress<'_> {
    /// A gate of clients that begin now.
    pub fn new(rt: &HostRuntime) -> Progress<'_> {
        let start = match Instant::now(rt) {
            Ok(now) if rt.stderr().is_terminal() => Some(now),
            _ => None,
        };
        Progress {
            rt,
            start,
            lines: AtomicU64::new(0),
            answered: AtomicU64::new(0),
            told_at: AtomicU64::new(0),
        }
    }

    // Tells so many lines where the last telling was a second ago. Of several clients that come then one tells.
    fn tell(&self, start: Instant, answered: u64) {
        let Ok(elapsed) = start.elapsed(self.rt) else {
            return;
        };
        let now = u64::try_from(elapsed.as_millis()).unwrap_or(u64::MAX);
        let last = self.told_at.load(Ordering::Relaxed);
        if now.saturating_sub(last) < BETWEEN {
            return;
        }
        let taken = self
            .told_at
            .compare_exchange(last, now, Ordering::Relaxed, Ordering::Relaxed);
        if taken.is_ok() {
            let lines = self.lines.load(Ordering::Relaxed);
            // Where this can't be told, nobody is told.
            let _ = eprintln!(self.rt; "ca: {answered} of {lines} lines answered");
        }
    }
}

impl Gate for Progress<'_> {
    fn begin(&self, lines: u64) {
        self.lines.store(lines, Ordering::Relaxed);
    }

    fn before(&self, _client: u32, _line: u32) {}

    fn after(&self, _client: u32, _line: u32, _answer: &Answer) {
        if let Some(start) = self.start {
            let before = self.answered.fetch_add(1, Ordering::Relaxed);
            self.tell(start, before.wrapping_add(1));
        }
    }
}
