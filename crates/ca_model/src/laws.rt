//! What the definitions promise.
ghost use Rattle.ca_model.specs.Edges.{CutsBegin};
ghost use Rattle.ca_model.specs.Passes.{PassesMeet};

/// A pass over a shared history that sees more of it, and whose log, lawful before and after, gets one entry, meets a store's contract.
pub fn passes_meet()
    ensures { PassesMeet }
{}

/// What a run has up to a cut is the beginning of what it has up to its upper edge, so whoever takes objects from the front of a run that was
/// cut takes those of the whole one.
pub fn cuts_begin()
    ensures { CutsBegin }
{}
