//! Trees and their passes.
ghost use Rattle.std.specs.Prelude.{◌≡◌, ◌≢◌, ◌↔◌, ◌+◌, ◌≤◌, [], IfOk, OnOk, OnErr, Err};
ghost use Rattle.ca_adapt.specs.Allowed.{IsAllowed};
ghost use Rattle.ca_node.specs.TreeView.{blank};
ghost use Rattle.ca_replace.specs.declared.fault.TreeFault.TheVariants.{BadSize as IsBadSize, BadTuning as IsBadTuning, NoPass as IsNoPass};
ghost use Rattle.ca_adapt.specs.Tuned.{IsTuned};
ghost use Rattle.ca_replace.specs.Made.{sizes_with};
ghost use Rattle.ca_replace.specs.Resting.{IsAtRest};
ghost use Rattle.ca_rows.specs.Kept.{AreKept};
ghost use Rattle.ca_rows.specs.Opening.{AreInBounds};
ghost use Rattle.ca_rows.specs.Passes.{BeginsOn};
ghost use Rattle.ca_rows.specs.Rule.{fresh};

use crate::fault::TreeFault;
use ca_adapt::Tuning;
use ca_node::{TreePass, TreeSpace};
use ca_rows::{RowsFault, Sizes, Starts};
use std::alloc::Global;

/// A map of objects by their keys, on words that passes share.
pub struct Tree {
    pub(crate) space: TreeSpace,
    pub(crate) tuning: Tuning,
    pub ghost tuned: { IsTuned space.sizes tuning },
}

impl Drop for Tree {
    fn drop(self) {
        let Self {
            space: _,
            tuning: _,
        } = self;
    }
}

impl Tree {
    /// An empty map, on so many rows, for so many passes. The element `keypos` of an object is its key, counted from 1. It is refused with `BadSize` where
    /// rows (384 to 2^24 - 1), passes (1 to 64) or a start are out of their bounds, else with `BadTuning` where the tuning isn't allowed, and else with
    /// `NoMemory` where memory for its words lacks: 1,088 bytes a row and 5,184 more.
    pub fn new(
        alloc: Global,
        rows: u32,
        passes: u32,
        keypos: u32,
        tuning: Tuning,
        starts: Starts,
    ) -> Result<Tree, TreeFault>
        requires { (1 ≤ keypos) × (keypos ≤ 120) }
        ensures bad_size { (result ≡ Err IsBadSize) ↔ ¬ AreInBounds (sizes_with rows passes keypos tuning starts) }
        ensures bad_tuning { (result ≡ Err IsBadTuning) ↔ (AreInBounds (sizes_with rows passes keypos tuning starts) × ¬ IsAllowed tuning) }
        ensures never { result ≢ Err IsNoPass }
        ensures sizes { IfOk result (λ tree. tree.space.sizes ≡ sizes_with rows passes keypos tuning starts) }
        ensures tuning { IfOk result (λ tree. tree.tuning ≡ tuning) }
        ensures none { IfOk result (λ tree. tree.space.made ≡ 0) }
    {
        let sizes = Sizes {
            rows,
            passes,
            keypos,
            leaf: tuning.leaf,
            levels: tuning.levels,
            starts,
        };
        if !sizes.are_in_bounds() {
            return Err(TreeFault::BadSize);
        }
        if !tuning.is_allowed() {
            return Err(TreeFault::BadTuning);
        }
        let made = TreeSpace::new(
            alloc,
            rows,
            passes,
            keypos,
            tuning.leaf,
            tuning.levels,
            starts,
        );
        let Ok(space) = made else {
            return Err(TreeFault::NoMemory);
        };
        Ok(Tree { space, tuning })
    }

    /// The words that the passes share.
    pub fn space(&self) -> &TreeSpace
        ensures { result.now ≡ self.now.space }
    {
        &self.space
    }

    // The same, with the tuning, of a tree that is no more.
    pub(crate) fn into_parts(self) -> (TreeSpace, Tuning)
        ensures { (result.0 ≡ self.space) × (result.1 ≡ self.tuning) }
    {
        let Self { space, tuning } = self;
        (space, tuning)
    }

    /// Makes a pass: the right to read and edit the map. Its number is that of the passes made until then, and it, together. A store can be
    /// made of it. It is refused with `NoPass` where as many were made as the tree is for, and with `NoMemory` where memory for the list of the rows that
    /// it keeps lacks; then no pass more was made.
    #[tactic(auto, using(crate::proofs::Fresh::rests))]
    pub fn enroll(&mut self, alloc: Global) -> Result<TreePass, TreeFault>
        ensures full { (result ≡ Err IsNoPass) ↔ (self.old.space.made ≡ self.old.space.sizes.passes) }
        ensures never { (result ≢ Err IsBadSize) × (result ≢ Err IsBadTuning) }
        ensures same { (self.new.space.table.shared ≡ self.old.space.table.shared) × (self.new.space.sizes ≡ self.old.space.sizes)
            × (self.new.tuning ≡ self.old.tuning) }
        ensures counted { OnOk result (self.new.space.made ≡ self.old.space.made + 1) }
        ensures refused { OnErr result (self.new.space.made ≡ self.old.space.made) }
        ensures number { IfOk result (λ pass. pass.number ≡ self.new.space.made) }
        ensures tally { IfOk result (λ pass. pass.tally ≡ record { splits = 0; joins = 0 }) }
        ensures nothing_kept { IfOk result (λ pass. AreKept self.old.space.sizes.rows pass.seat.me.0.claims pass.kept.rows × (pass.kept.rows.items ≡ [])) }
        ensures begins { IfOk result (λ pass. BeginsOn self.old.space pass (fresh self.old.space.sizes pass.number (blank pass.number))) }
        ensures resting { IfOk result (λ pass. IsAtRest self.old.space pass) }
    {
        match self.space.enroll(alloc) {
            Ok(pass) => Ok(pass),
            Err(RowsFault::NoPass) => Err(TreeFault::NoPass),
            Err(_) => Err(TreeFault::NoMemory),
        }
    }
}
