//! Tests of the tree. The tests are all that this crate has. By one client: rows, nodes, tunings, and calls on a store, as rows of data that
//! small functions go over, and ranges beside a plain definition of what is within two edges. Under contention, while bases are split and joined: clients
//! read ranges while another one removes and puts, and each must be a state between two of its calls; and clients on threads put, remove and read the
//! same keys; each client notes what its calls were answered, and behind the last call each key's replies are checked: whether some merge of the clients'
//! calls explains all of them, and the object that the key has in the end.
#![tactic(auto)]

#[cfg(test)]
mod calls;
#[cfg(test)]
mod clients;
#[cfg(test)]
mod closings;
#[cfg(test)]
mod events;
#[cfg(test)]
mod marked;
#[cfg(test)]
mod merges;
#[cfg(test)]
mod nodes;
#[cfg(test)]
mod objects;
#[cfg(test)]
mod own_keys;
#[cfg(test)]
mod passes;
#[cfg(test)]
mod player;
#[cfg(test)]
mod prefixes;
#[cfg(test)]
mod range_clients;
#[cfg(test)]
mod range_tests;
#[cfg(test)]
mod ranges;
#[cfg(test)]
mod rows;
#[cfg(test)]
mod scripts;
#[cfg(test)]
mod stores;
#[cfg(test)]
mod sums;
#[cfg(test)]
mod trees;
