//! The rows of the last bases that were walked of a run.
ghost use Rattle.std.specs.Prelude.{◌≡◌, ◌+◌, ◌<◌, ◌≤◌, ℕ};
ghost use Rattle.ca_replace.specs.Running.{HasRows};

use crate::opened::{WIDTH, Window};

/// The window of a run of which no base was walked yet.
pub(crate) fn new_window() -> Window
    ensures none { result.walked ≡ 0 }
    ensures rows { (row : ℕ → ℕ) → HasRows row result }
{
    Window {
        rows: [0; 64],
        walked: 0,
    }
}

/// The next base was walked, which has this row.
pub(crate) fn add_row(window: &mut Window, row: u32)
    requires room { window.old.walked < 4294967295 }
    ensures walked { window.new.walked ≡ window.old.walked + 1 }
    ensures rows { (rows : ℕ → ℕ) → HasRows rows window.old → row ≡ rows window.old.walked → HasRows rows window.new }
{
    window.rows[(window.walked % WIDTH) as usize] = row;
    window.walked += 1;
}

/// The row of a base that is in the window.
pub(crate) fn row_at(window: &Window, at: u32) -> u32
    requires walked { at < window.now.walked }
    requires lately { window.now.walked ≤ at + 64 }
    ensures row { (rows : ℕ → ℕ) → HasRows rows window.now → result ≡ rows at }
{
    window.rows[(at % WIDTH) as usize]
}
