//! Tests of joins. The tests are all that this crate has. An attempt to join stops between two of its steps, and another pass comes to a base that is marked
//! for it. A pass stands below a route that is unlinked. A range gives up, and leaves its marks. A tree is drawn before and behind joins. Trees grow until no row
//! is free and shrink to nothing, over and over in the same rows. Counters at their last values refuse what they are needed for, and nothing else.
#![tactic(auto)]

#[cfg(test)]
mod below;
#[cfg(test)]
mod calls;
#[cfg(test)]
mod drawing;
#[cfg(test)]
mod given_up;
#[cfg(test)]
mod growing;
mod halted;
#[cfg(test)]
mod halts;
#[cfg(test)]
mod joins;
#[cfg(test)]
mod meeting;
#[cfg(test)]
mod objects;
#[cfg(test)]
mod ranges;
#[cfg(test)]
mod steps;
#[cfg(test)]
mod stopped;
#[cfg(test)]
mod trees;
#[cfg(test)]
mod worn;
