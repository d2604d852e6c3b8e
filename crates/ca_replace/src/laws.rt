//! What follows from the promises of calls alone.
ghost use Rattle.ca_replace.specs.Levels.{DeepComesLate, FullComesLate, SplitsByCommands, UpdatesByCommands};

/// In a tree for one pass none of the first commands is refused for want of levels: half as many as there are levels come before one that is, counted from where
/// the pass had split no base. A command reads, and makes one call that may edit, if any; it is tried once or several times. Other reads count for nothing.
pub fn deep_comes_late()
    ensures { DeepComesLate }
{}

/// In a tree for one pass none of the first commands finds the space short of rows: it has eight rows at most for each command that comes before one that does,
/// and 448 more, counted from where the pass had split no base and carried out no update.
pub fn full_comes_late()
    ensures { FullComesLate }
{}

/// A command carries out one update at most, however often it is tried.
pub fn updates_by_commands()
    ensures { UpdatesByCommands }
{}

/// In a tree for one pass it splits two bases at most.
pub fn splits_by_commands()
    ensures { SplitsByCommands }
{}
