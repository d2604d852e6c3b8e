//! How often commands were played.
use ca_cmd::Line;
use ca_ets::Cmd;

/// How many commands of each kind were answered without an error, and how many lines with one.
#[derive(Drop)]
pub(crate) struct Counts {
    good: [u32; 16],
    errors: u32,
}

impl Counts {
    /// Nothing was counted.
    pub(crate) fn new() -> Counts {
        Counts {
            good: [0; 16],
            errors: 0,
        }
    }

    /// Counts these lines, by the texts of their answers, a line each.
    pub(crate) fn add(&mut self, lines: &[Line], answers: &[u8]) {
        let mut rest = answers;
        for line in lines {
            if rest.starts_with(b"error") {
                self.errors = self.errors.saturating_add(1);
            } else if let Some(count) = self.good.get_mut(place_of(&line.cmd)) {
                *count = count.saturating_add(1);
            }
            rest = behind_line(rest);
        }
    }

    /// How many commands of the rarest kind were answered without an error.
    pub(crate) fn least(&self) -> u32 {
        let mut least = u32::MAX;
        for count in self.good {
            least = least.min(count);
        }
        least
    }

    /// How many lines were answered with an error.
    pub(crate) fn errors(&self) -> u32 {
        self.errors
    }
}

// What stands behind the first line.
fn behind_line(text: &[u8]) -> &[u8] {
    let mut rest = text;
    for _ in 0..text.len() {
        let Some((first, others)) = rest.split_first() else {
            return rest;
        };
        rest = others;
        if *first == b'\n' {
            return rest;
        }
    }
    rest
}

/// The place of its word among the sixteen.
pub(crate) fn place_of(cmd: &Cmd) -> usize {
    match cmd {
        Cmd::Insert(_) => 0,
        Cmd::InsertNew(_) => 1,
        Cmd::Lookup(_) => 2,
        Cmd::Member(_) => 3,
        Cmd::Delete(_) => 4,
        Cmd::Take(_) => 5,
        Cmd::UpdateCounter(_, _) => 6,
        Cmd::UpdateElement(_, _) => 7,
        Cmd::First => 8,
        Cmd::Last => 9,
        Cmd::Next(_) => 10,
        Cmd::Prev(_) => 11,
        Cmd::Select(_) => 12,
        Cmd::SelectRange(_, _, _) => 13,
        Cmd::Batch(_, _) => 14,
        Cmd::More => 15,
    }
}
