//! What updates of objects promise.
ghost use Rattle.ca_term.specs.UpdateLaws.{CountersKeepKeys, ElementsKeepKeys};

/// Operations on counters, and another element in the place of one that isn't the key, leave an object that fits, with the same key.
pub fn update_laws()
    ensures counters { CountersKeepKeys }
    ensures elements { ElementsKeepKeys }
{}
