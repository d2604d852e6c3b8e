//! Single steps on the words of the tree.
ghost use Rattle.ca_rows.specs.Layout.{row_words};
ghost use Rattle.std.specs.Prelude.{◌≡◌, ◌==◌, ℕ, ◌+◌, ◌*◌, ◌<◌, ◌≤◌, List, true, false};
ghost use mathlib.Core.Option.{none};
ghost use prog.Atomic.{either};
ghost use Rattle.atomic_table.specs.Table.{step, Allows};
ghost use Rattle.ca_node.specs.Links.{IsLinked, IsLent, IsNoted};
ghost use Rattle.ca_node.specs.May.{MaySwap};
ghost use Rattle.ca_node.specs.Told.{AreHung, IsAnyLink, IsLed, IsLedSecured, IsShown, IsShownWord, link_word};
ghost use Rattle.ca_node.specs.Tree.{IsTree};
ghost use Rattle.ca_rows.specs.Calls.{Relinks};
ghost use Rattle.ca_rows.specs.Rule.{Ruled};
ghost use Rattle.ca_rows.specs.Passes.{CountsJoin, CountsSplit, OnlyReads, IsReading, KeepsList, sizes, known};
ghost use Rattle.ca_node.specs.TreePasses.{tree_of};

use crate::layout::ROOT;
use crate::link::Link;
use crate::plays::{Descend, Lead, Read};
use crate::rule::{TreePass, TreeSpace};
use crate::view::Knowledge;
use atomic_table::Play;
use ca_rows::{ROW_WORDS, View};

/// One load of a link, the root link or one of a route that the pass was shown. It shows the base that the link names, with the objects that the
/// base names, or the route. At that moment the base's objects were what the last state of the history has of the keys that are led there. Which
/// base a walk came to last stays. Where the pass knows that an attempt is secured whose route's link it is, it shows a base that this attempt marked.
pub fn load_link(space: &TreeSpace, pass: &mut TreePass, link: Link) -> u32
    requires reading { IsReading space.now pass.old }
    requires inside { link_word link < row_words * (sizes space.now).rows + row_words }
    requires known { IsAnyLink (tree_of pass.old) (link_word link) }
    ensures frame { KeepsList pass.old pass.new }
    ensures led { IsLed false (link_word link) (known pass.old) result (known pass.new) }
    ensures secured { IsLedSecured (link_word link) (known pass.old) (known pass.new) }
{
    space.load::<Lead>(pass, word_of(link)) as u32
}

// The same by a walk: where the link names a base, it is the one that a walk came to last.
pub(crate) fn descend(space: &TreeSpace, pass: &mut TreePass, link: Link) -> u32
    requires reading { IsReading space.now pass.old }
    requires inside { link_word link < row_words * (sizes space.now).rows + row_words }
    requires known { IsAnyLink (tree_of pass.old) (link_word link) }
    ensures frame { KeepsList pass.old pass.new }
    ensures led { IsLed true (link_word link) (known pass.old) result (known pass.new) }
{
    space.load::<Descend>(pass, word_of(link)) as u32
}

/// One load of a word of a row that the pass was shown: it is as it was shown. Of a route that goes for all words but its links and its join
/// word. The routes of joins that marked bases which the pass was shown are ones that it remembers.
pub fn load_word(space: &TreeSpace, pass: &mut TreePass, row: u32, index: u32) -> u64
    requires reading { IsReading space.now pass.old }
    requires inside { (row ≤ (sizes space.now).rows) × (index < row_words) }
    requires shown { (word : ℕ) × IsShownWord (tree_of pass.old) row index word }
    ensures frame { OnlyReads pass.old pass.new }
    ensures word { (word : ℕ) → IsShownWord (tree_of pass.old) row index word → result ≡ word }
    ensures hung { AreHung (known pass.old) }
{
    space.load::<Read>(pass, ROW_WORDS as u32 * row + index)
}

/// One exchange of a link, of a row that the pass was shown against a row that it may hold. False exactly where the exchange was lost.
pub fn replace_link<M: Play<(), View<Knowledge>>>(
    space: &TreeSpace,
    pass: &mut TreePass,
    link: Link,
    old: u32,
    new: u32,
) -> bool
    requires reading { IsReading space.now pass.old }
    requires inside { link_word link < row_words * (sizes space.now).rows + row_words }
    requires shown { (its : List ℕ) × IsShown (tree_of pass.old) old its }
    requires rule { Allows (Ruled IsLinked IsLent IsNoted IsTree (sizes space.now)) space.now.table.shared.table_id.slots pass.old.seat.id
        (known pass.old) (link_word link) (λ n. either (n == old) new n) (Relinks MaySwap M.then (step space.now.table.shared.table_id.slots
        (link_word link) old new none) (known pass.old)) }
    ensures frame { KeepsList pass.old pass.new }
    ensures told { (n : ℕ) × M.then (step space.now.table.shared.table_id.slots (link_word link) old new none) (known pass.old) n (known pass.new)
        × (result ≡ (n == old)) }
{
    space.swap::<M>(pass, word_of(link), old as u64, new as u64)
}

/// The same exchange, which carries out a split where it wins: the pass's tally counts it then.
pub(crate) fn divide_link<M: Play<(), View<Knowledge>>>(
    space: &TreeSpace,
    pass: &mut TreePass,
    link: Link,
    old: u32,
    new: u32,
) -> bool
    requires reading { IsReading space.now pass.old }
    requires inside { link_word link < row_words * (sizes space.now).rows + row_words }
    requires rule { Allows (Ruled IsLinked IsLent IsNoted IsTree (sizes space.now)) space.now.table.shared.table_id.slots pass.old.seat.id
        (known pass.old) (link_word link) (λ n. either (n == old) new n) (Relinks MaySwap M.then (step space.now.table.shared.table_id.slots
        (link_word link) old new none) (known pass.old)) }
    ensures frame { CountsSplit result pass.old pass.new }
    ensures told { (n : ℕ) × M.then (step space.now.table.shared.table_id.slots (link_word link) old new none) (known pass.old) n (known pass.new)
        × (result ≡ (n == old)) }
{
    space.swap_split::<M>(pass, word_of(link), old as u64, new as u64)
}

/// The same exchange, which carries out a join where it wins: the pass's tally counts it then.
pub(crate) fn join_link<M: Play<(), View<Knowledge>>>(
    space: &TreeSpace,
    pass: &mut TreePass,
    link: Link,
    old: u32,
    new: u32,
) -> bool
    requires reading { IsReading space.now pass.old }
    requires inside { link_word link < row_words * (sizes space.now).rows + row_words }
    requires rule { Allows (Ruled IsLinked IsLent IsNoted IsTree (sizes space.now)) space.now.table.shared.table_id.slots pass.old.seat.id
        (known pass.old) (link_word link) (λ n. either (n == old) new n) (Relinks MaySwap M.then (step space.now.table.shared.table_id.slots
        (link_word link) old new none) (known pass.old)) }
    ensures frame { CountsJoin result pass.old pass.new }
    ensures told { (n : ℕ) × M.then (step space.now.table.shared.table_id.slots (link_word link) old new none) (known pass.old) n (known pass.new)
        × (result ≡ (n == old)) }
{
    space.swap_join::<M>(pass, word_of(link), old as u64, new as u64)
}

// The word of a link.
fn word_of(link: Link) -> u32
    requires { link_word link < 4294967296 }
    ensures { result ≡ link_word link }
{
    match link {
        Link::Root => ROOT,
        Link::Left(route) => ROW_WORDS as u32 * route + 1,
        Link::Right(route) => ROW_WORDS as u32 * route + 2,
    }
}
