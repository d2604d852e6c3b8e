//! Bases that are marked for a range, or for a join.
ghost use Rattle.ca_rows.specs.Layout.{row_words};
ghost use Rattle.std.specs.Prelude.{◌≡◌, ◌+◌, ◌*◌, ◌<◌, ◌∷◌, [], false};
ghost use Rattle.ca_node.specs.Copies.{IsCopy, IsFirstCopy, IsNextCopy, HasCopied, marking_now};
ghost use Rattle.ca_node.specs.JoinCopies.{IsJoinCopy};
ghost use Rattle.ca_node.specs.Told.{IsMissed, link_word};
ghost use Rattle.ca_node.specs.TreePasses.{tree_of};
ghost use Rattle.ca_rows.specs.Passes.{IsOn, KeepsList, sizes, known};

use crate::link::Link;
use crate::plays::{MarkFirst, MarkNext, Marking};
use crate::rule::{TreePass, TreeSpace};
use crate::steps::replace_link;

/// One exchange of a link, of the old base against a copy that the pass wrote: it marks the first base of the pass's own range, which `K` names, and lends
/// the row to it that says up to where it goes. The old base is the one that the pass's last load of the link showed, and no range has it. False exactly
/// where the exchange was lost, which is counted; then nothing else changed.
pub fn mark_first<K: Marking>(
    space: &TreeSpace,
    pass: &mut TreePass,
    link: Link,
    old: u32,
    new: u32,
) -> bool
    requires own { IsOn space.now pass.old }
    requires copy { IsCopy (sizes space.now) (known pass.old) new K.copy }
    requires first { IsFirstCopy (known pass.old) K.copy K.begun K.border }
    requires old { K.copy.old.row ≡ old }
    requires link { K.copy.old.place.link ≡ link_word link }
    requires inside { link_word link < row_words * (sizes space.now).rows + row_words }
    ensures frame { KeepsList pass.old pass.new }
    ensures done { HasCopied result (K.begun.top ∷ []) (marking_now (tree_of pass.old).ranges K.begun K.border) new K.copy (known pass.old)
        (known pass.new) }
    ensures won { result ≡ false → IsMissed K.copy.old (known pass.old) }
{
    replace_link::<MarkFirst<K>>(space, pass, link, old, new)
}

/// The same for each next base of a range, the pass's own or that of another one: it follows a base that the range marked, and names it. Where the range is
/// over by then, the copy is a base as any other.
pub fn mark_next<K: Marking>(
    space: &TreeSpace,
    pass: &mut TreePass,
    link: Link,
    old: u32,
    new: u32,
) -> bool
    requires own { IsOn space.now pass.old }
    requires copy { IsCopy (sizes space.now) (known pass.old) new K.copy }
    requires next { IsNextCopy (known pass.old) K.copy K.left }
    requires old { K.copy.old.row ≡ old }
    requires link { K.copy.old.place.link ≡ link_word link }
    requires inside { link_word link < row_words * (sizes space.now).rows + row_words }
    ensures frame { KeepsList pass.old pass.new }
    ensures done { HasCopied result [] (tree_of pass.old).ranges new K.copy (known pass.old) (known pass.new) }
    ensures won { result ≡ false → IsMissed K.copy.old (known pass.old) }
{
    replace_link::<MarkNext<K>>(space, pass, link, old, new)
}

/// The same for a join: the old base hangs under the route that is joined, and the copy has the mark of an attempt that was begun. Neither a range has the old
/// base nor a join, as the pass knows. Where the attempt is finished by then, the copy is a base as any other.
pub fn mark_for_join<K: Marking>(
    space: &TreeSpace,
    pass: &mut TreePass,
    link: Link,
    old: u32,
    new: u32,
) -> bool
    requires own { IsOn space.now pass.old }
    requires copy { IsJoinCopy (sizes space.now) (known pass.old) new K.copy }
    requires old { K.copy.old.row ≡ old }
    requires link { K.copy.old.place.link ≡ link_word link }
    requires inside { link_word link < row_words * (sizes space.now).rows + row_words }
    ensures frame { KeepsList pass.old pass.new }
    ensures done { HasCopied result [] (tree_of pass.old).ranges new K.copy (known pass.old) (known pass.new) }
    ensures won { result ≡ false → IsMissed K.copy.old (known pass.old) }
{
    replace_link::<MarkNext<K>>(space, pass, link, old, new)
}
