//! Tests of tables over the tree by command files, and nothing else. One client plays random files of all commands, and is answered as the table of
//! a list is. Clients on threads play files on one tree, each with a pass and a continuation of its own; what they noted must be explained by some
//! merge of the files, each in its order, played on the table of a list: each answer, and the table in the end. So walks, selections and batches are
//! those of one state, whatever other clients do meanwhile, and no split or join of bases, and no row that is used again, shows.
#![tactic(auto)]

#[cfg(test)]
mod alone;
#[cfg(test)]
mod altered;
#[cfg(test)]
mod clients;
#[cfg(test)]
mod counts;
#[cfg(test)]
mod draws;
#[cfg(test)]
mod gate;
#[cfg(test)]
mod histories;
#[cfg(test)]
mod keys;
#[cfg(test)]
mod made;
#[cfg(test)]
mod merges;
#[cfg(test)]
mod place;
#[cfg(test)]
mod player;
#[cfg(test)]
mod rounds;
#[cfg(test)]
mod states;
#[cfg(test)]
mod trees;
