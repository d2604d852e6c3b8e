//! Two bases are joined: a new base gets the items of both.
ghost use Rattle.std.specs.Prelude.{◌≡◌, ℕ, ◌+◌, ◌≤◌, ◌++◌, length};
ghost use Rattle.ca_base.specs.Finding.{IsBaseShown};
ghost use Rattle.ca_base.specs.Holding.{ReadsAndHolds};
ghost use Rattle.ca_base.specs.Joined.{AreJoinable, AreTrimmed, HasPart, SpellsJoined, words_in};
ghost use Rattle.ca_base.specs.Prefixes.{IsShift};
ghost use Rattle.ca_base.specs.Writing.{HasWritten, SpellsBase};
ghost use Rattle.ca_node.specs.Row.{count};
ghost use Rattle.ca_node.specs.TreePasses.{tree_of};
ghost use Rattle.ca_node.specs.TreeView.{Note};
ghost use Rattle.ca_rows.specs.Passes.{OnlyReads, IsReading, StillKeepsList, sizes, known};

use crate::copying::{Run, copy_items};
use crate::prefixes::{Prefix, Shift, Trimmed, copy_prefix, trim};
use crate::swapping::STATISTIC;
use crate::writing::{Front, write_head};
use ca_node::{COUNT_LIMIT, TreePass, TreeSpace, load_word};

/// All items of a base that was shown, of which there are so many, and what becomes of their heads.
#[derive(Clone, Copy)]
pub(crate) struct Part {
    pub(crate) base: u32,
    pub(crate) many: u32,
    pub(crate) shift: Shift,
}

/// Writes the base to which two are joined that the pass was shown, to a row that it holds, at this level: it has the items of the left one and then those of
/// the right one, no mark, and a statistic of 0. Its prefix is what those of both begin with, or that of the one alone that has items; so heads are made of
/// the old ones, and no object is read.
pub fn write_joined(
    space: &TreeSpace,
    pass: &mut TreePass,
    row: u32,
    left: u32,
    right: u32,
    level: u16,
)
    requires row { ReadsAndHolds space.now pass.old row }
    requires shown { (first : Note) × (second : Note) × AreJoinable (sizes space.now) (tree_of pass.old) left right first second }
    ensures frame { StillKeepsList pass.old pass.new }
    ensures written { (first second : Note) → AreJoinable (sizes space.now) (tree_of pass.old) left right first second
        → HasWritten row (SpellsJoined first second level) (known pass.old) (known pass.new) }
{
    let many = items_of(space, pass, left);
    let more = items_of(space, pass, right);
    let mut low = Prefix::new();
    copy_prefix(space, pass, left, &mut low);
    let mut high = Prefix::new();
    copy_prefix(space, pass, right, &mut high);
    let (one, other) = trim_both(&low, many, &high, more);
    let front = Front {
        level,
        statistic: STATISTIC,
        prefix: one.prefix,
    };
    let first = Part {
        base: left,
        many,
        shift: one.shift,
    };
    let second = Part {
        base: right,
        many: more,
        shift: other.shift,
    };
    write_parts(space, pass, row, &front, first, second);
}

/// How many items a base has that the pass was shown.
pub fn items_of(space: &TreeSpace, pass: &mut TreePass, base: u32) -> u32
    requires reading { IsReading space.now pass.old }
    requires shown { (note : Note) × IsBaseShown (sizes space.now) (tree_of pass.old) base note }
    ensures frame { OnlyReads pass.old pass.new }
    ensures count { (note : Note) → IsBaseShown (sizes space.now) (tree_of pass.old) base note → result ≡ count note.its }
    ensures few { result ≤ 65535 }
{
    (load_word(space, pass, base, 0) % COUNT_LIMIT) as u32
}

// The prefixes of two bases that are joined, which have so many items, are trimmed to what they begin with in common: so both are one prefix. Where one has
// no item, that is the other one's.
fn trim_both<'a>(low: &'a [u8], many: u32, high: &'a [u8], more: u32) -> (Trimmed<'a>, Trimmed<'a>)
    ensures { AreTrimmed low.now many high.now more result.0 result.1 }
{
    if many == 0 {
        let both = trim(high, high);
        return (both, both);
    }
    if more == 0 {
        let both = trim(low, low);
        return (both, both);
    }
    (trim(low, high), trim(high, low))
}

// Writes a base row with the items of one base that was shown and then those of another one, with their heads shifted.
fn write_parts(
    space: &TreeSpace,
    pass: &mut TreePass,
    row: u32,
    front: &Front<'_>,
    first: Part,
    second: Part,
)
    requires row { ReadsAndHolds space.now pass.old row }
    requires shown { (a : Note) × (b : Note) × HasPart (sizes space.now) (tree_of pass.old) first a × HasPart (sizes space.now) (tree_of pass.old) second b }
    requires short { length front.now.prefix.now ≤ 32 }
    requires few { first.many + second.many ≤ 120 }
    requires shifts { IsShift first.shift.lead first.shift.bytes × IsShift second.shift.lead second.shift.bytes }
    ensures frame { StillKeepsList pass.old pass.new }
    ensures written { (a b : Note) → HasPart (sizes space.now) (tree_of pass.old) first a → HasPart (sizes space.now) (tree_of pass.old) second b
        → HasWritten row (SpellsBase front.now.prefix.now (words_in first a ++ words_in second b) front.now.level front.now.statistic)
        (known pass.old) (known pass.new) }
{
    let run = Run {
        base: first.base,
        from: 0,
        count: first.many,
    };
    let rest = Run {
        base: second.base,
        from: 0,
        count: second.many,
    };
    write_head(space, pass, row, front, first.many + second.many);
    copy_items(space, pass, row, 0, run, first.shift);
    copy_items(space, pass, row, first.many, rest, second.shift);
}
