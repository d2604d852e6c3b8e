//! Who is told of each line as it is played.
use ca_cmd::Answer;

/// Is told of each line before it is played, and of its answer. Clients count from 1, and a line has the number that its file gives it. A gate may hold
/// a client up, and changes nothing of what it is answered: no contract speaks of it.
pub trait Gate {
    /// Clients with so many lines in all play next. It is told once in a run, before anybody plays.
    fn begin(&self, _lines: u64) {}

    /// The client's line of this number is played next.
    fn before(&self, client: u32, line: u32);

    /// The client's line of this number was answered so.
    fn after(&self, client: u32, line: u32, answer: &Answer);
}

/// A gate that does nothing.
#[derive(Clone, Copy, Debug)]
pub struct OpenGate;

impl Gate for OpenGate {
    fn before(&self, _client: u32, _line: u32) {}

    fn after(&self, _client: u32, _line: u32, _answer: &Answer) {}
}
