//! What follows from the definitions alone.
ghost use Rattle.ca_explain.specs.Explaining.{LogsExplain};
ghost use Rattle.ca_explain.specs.Pairs.{PairsAreObjects};
ghost use Rattle.ca_explain.specs.Steps.{AloneSteps, AloneIsNeverOvertaken, SureIsNeverRefused};
ghost use Rattle.ca_explain.specs.Worked.{HaveWorkedLogs, IsWorkedMerge};

/// The pairs that a store map may hold are exactly those of objects that fit, each under the code of its key.
pub fn pairs_are_objects()
    ensures { PairsAreObjects }
{}

/// Over a store that nobody else edits each step of a table is the one-thread step on the table that the known map stands for, and no call is
/// overtaken; a store that is sure refuses nothing.
pub fn alone_steps()
    ensures steps { AloneSteps }
    ensures never_overtaken { AloneIsNeverOvertaken }
    ensures never_refused { SureIsNeverRefused }
{}

/// Where several clients played as their logs tell and the logs are lawful for one history, one thread that runs their commands, merged by
/// the places of their events, gives each client its replies and ends with the table that the history's last state stands for.
pub fn logs_explain()
    ensures { LogsExplain }
{}

/// A small history with two clients whose logs are lawful for it, and the merge that comes out, written out.
pub fn worked_merge()
    ensures logs { HaveWorkedLogs }
    ensures merge { IsWorkedMerge }
{}
