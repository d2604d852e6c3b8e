//! Tests of stores and of tables over them, and nothing else: a table over a store that others edit and that refuses calls, the table of a list
//! beside a table over a plain store, and shelves and sinks in memory. Commands, edits of others and answers are texts, so that a row of a test is
//! read as what a client sees.
#![tactic(auto)]

#[cfg(test)]
mod edit;
#[cfg(test)]
mod library;
#[cfg(test)]
mod list_tests;
#[cfg(test)]
mod outside_tests;
#[cfg(test)]
mod player;
#[cfg(test)]
mod rows;
#[cfg(test)]
mod script;
#[cfg(test)]
mod scripted_tests;
