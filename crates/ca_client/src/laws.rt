//! What follows from the definitions alone, and what threads need of what a client is handed.
ghost use Rattle.ca_client.specs.Played.{LogsAreParts};
ghost use Rattle.ca_client.specs.Ran.{HaveOneHistory};

use ca_cmd::Lines;

/// A client that played from an empty log has the log of its parts.
pub fn logs_are_parts()
    ensures { LogsAreParts }
{}

/// The logs of the passes of a run tell its history.
pub fn runs_have_one_history()
    ensures { HaveOneHistory }
{}

/// The lines of a client may be read by several threads at once.
pub fn lines_are_shared() {
    may_be_shared::<Lines>();
}

fn may_be_shared<T: Sync>() {}
