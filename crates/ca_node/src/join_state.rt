//! How far a join is.

/// How far the join of a route is, by the number of its last attempt: it is finished, or there was none; it is prepared; or it is secured.
#[derive(Clone, Copy)]
pub enum JoinState {
    Idle(u64),
    Prep(u64),
    Secured(u64),
}
