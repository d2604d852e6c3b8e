//! Why a try came to nothing.

/// Which exchange was lost to another pass.
#[derive(Clone, Copy)]
pub enum Exchange {
    /// That of a link.
    Link,
    /// That of the pool's head.
    Head,
}

/// Why a try came to nothing.
#[derive(Clone, Copy)]
pub enum Stop {
    /// This exchange was lost to another pass.
    Lost(Exchange),
    /// No row was free.
    Empty,
    /// The pool's tag can rise no more.
    Worn,
}
