//! What a snapshot is of, and what it comes to.
use ca_adapt::Tuning;
use ca_model::{Counter, Edge};

/// Which objects a pass wants: those within both edges. Where `want` isn't 0, fewer will do: those from the lower edge on up to where `counts` answered true of
/// so many.
#[derive(Drop)]
pub struct Sought<'a, F> {
    pub lo: Edge<'a>,
    pub hi: Edge<'a>,
    /// How many objects that are counted suffice, or 0 where all are wanted.
    pub want: u32,
    pub counts: &'a F,
}

/// Which objects a pass wants, by which numbers the tree adapts, and how many turns may be spent.
#[derive(Drop)]
pub struct Search<'a, F> {
    pub sought: &'a Sought<'a, F>,
    pub tuning: &'a Tuning,
    /// In turns, as `Spent` counts them.
    pub budget: u32,
}

/// Bases that have together what one state of the history has, from left to right without a gap.
#[derive(Clone, Copy)]
pub struct Run {
    /// The row of the last of them.
    pub last: u32,
    /// Whether each of them names the one on its left, and the first one none. Else the last one is the only one.
    pub chained: bool,
    /// Whether they have all keys up to the upper edge.
    pub whole: bool,
}

/// What a snapshot comes to.
#[derive(Clone, Copy)]
pub enum Snapped {
    /// These bases.
    Run(Run),
    /// Nothing: an exchange was lost to another pass, or another pass's range was in the way and was helped. It may be tried again.
    Again,
    /// The budget was spent.
    Busy,
    /// No row was free.
    NoRow,
    /// A counter can rise no more: the pool's tag, or the number of the pass's ranges.
    Worn(Counter),
}
