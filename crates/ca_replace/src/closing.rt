//! Trees are closed.
ghost use Rattle.std.specs.Prelude.{◌≡◌, ◌↔◌, ◌<◌, ◌≤◌, IfErr, IfOk, MatchResult, vec_len};
ghost use Rattle.std.specs.List.{All};
ghost use Rattle.ca_replace.specs.Closing.{IsClosed};
ghost use Rattle.ca_replace.specs.Past.{past_of};
ghost use Rattle.ca_replace.specs.declared.closing.CloseFault.TheVariants.{Missing as IsMissing};
ghost use Rattle.ca_rows.specs.Closed.{IsClosable};

use crate::past::Past;
use crate::tree::Tree;
use ca_close::Objects;
use ca_node::{TreePass, close_words};
use std::alloc::Global;

/// Why a tree isn't closed.
#[derive(Clone, Copy, Debug, PartialEq, Eq)]
pub enum CloseFault {
    /// Fewer passes came than were enrolled.
    Missing,
    /// Memory for the list of the objects lacked: four bytes a row.
    NoMemory,
}

/// What is left of a tree.
#[derive(Drop)]
pub struct Closed {
    /// The last state of the tree's history.
    pub objects: Objects,
    /// What the tree was, and what its passes did.
    pub past: Past,
}

impl Tree {
    /// Ends a tree whose passes are all here, of which none is pinned: what each of them did is of one history, and the objects are its last state. The tree and the
    /// passes come back as they were where fewer passes came than were enrolled (`Missing`), and where memory lacks, which is taken first: four bytes a row.
    pub fn close(
        self,
        alloc: Global,
        passes: Vec<TreePass>,
    ) -> Result<Closed, (Tree, Vec<TreePass>, CloseFault)>
        requires { All (λ pass. IsClosable self.space.table.shared.table_id pass.seat) passes.items }
        ensures past { IfOk result (λ closed. closed.past ≡ past_of self passes.items) }
        ensures closed { IfOk result (λ closed. IsClosed closed.past closed.objects) }
        ensures missing { MatchResult result (λ closed. self.space.made ≤ vec_len passes) (λ refused.
            (refused.2 ≡ IsMissing) ↔ (vec_len passes < self.space.made)) }
        ensures untouched { IfErr result (λ refused. (refused.0 ≡ self) × (refused.1 ≡ passes)) }
    {
        if passes.len() < self.space.enrolled() as usize {
            return Err((self, passes, CloseFault::Missing));
        }
        let Ok(room) = Vec::with_capacity(alloc, self.space.rows() as usize) else {
            return Err((self, passes, CloseFault::NoMemory));
        };
        let past = Past::of(&self, &passes);
        let (space, tuning) = self.into_parts();
        let words = close_words(space, passes);
        let objects = Objects::list(words, tuning.levels, room);
        Ok(Closed { objects, past })
    }
}
