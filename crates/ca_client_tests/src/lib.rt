//! Tests of clients that play command lines, and nothing else: over a store that refuses calls by a script, on threads, and
//! with gates.
#![tactic(auto)]

#[cfg(test)]
mod endings;
#[cfg(test)]
mod files;
#[cfg(test)]
mod gates;
#[cfg(test)]
mod reading;
#[cfg(test)]
mod refusals;
#[cfg(test)]
mod sharing;
