//! Exchanges of a base: updates and splits.
ghost use Rattle.ca_rows.specs.Layout.{row_words};
ghost use Rattle.std.specs.Prelude.{◌≡◌, ◌+◌, ◌*◌, ◌<◌, false};
ghost use Rattle.ca_node.specs.Told.{IsUpdate, HasUpdated, IsDivision, HasDivided, IsMissed, link_word};
ghost use Rattle.ca_rows.specs.Passes.{CountsSplit, IsOn, KeepsList, sizes, known};

use crate::link::Link;
use crate::plays::{Divide, Intent, Plan, Replace};
use crate::rule::{TreePass, TreeSpace};
use crate::steps::{divide_link, replace_link};

/// One exchange of a link, of the old base against one that the pass wrote: it carries out the update that `K` names, which is the last edit of
/// the history then, and enters the call in the log. The old base is the one that the pass's last load of the link showed. False exactly where
/// the exchange was lost, which is counted; then nothing else changed. A pass that is alone loses none of a base that it lists.
pub fn replace_base<K: Intent>(
    space: &TreeSpace,
    pass: &mut TreePass,
    link: Link,
    old: u32,
    new: u32,
) -> bool
    requires own { IsOn space.now pass.old }
    requires update { IsUpdate (sizes space.now) (known pass.old) new K.update }
    requires old { K.update.old.row ≡ old }
    requires link { K.update.old.place.link ≡ link_word link }
    requires inside { link_word link < row_words * (sizes space.now).rows + row_words }
    ensures frame { KeepsList pass.old pass.new }
    ensures done { HasUpdated result new K.update (known pass.old) (known pass.new) }
    ensures won { result ≡ false → IsMissed K.update.old (known pass.old) }
{
    replace_link::<Replace<K>>(space, pass, link, old, new)
}

/// One exchange of a link, of a base against a route over two bases that the pass wrote: it carries out the split that `K` names, by which no
/// object comes or goes. The old base is the one that the pass's last load of the link showed. False exactly where the exchange was lost, which
/// is counted; then nothing else changed. Where it won, the pass's tally has one split more. A pass that is alone loses none of a base that it
/// lists.
pub fn divide_base<K: Plan>(
    space: &TreeSpace,
    pass: &mut TreePass,
    link: Link,
    old: u32,
    route: u32,
) -> bool
    requires own { IsOn space.now pass.old }
    requires division { IsDivision (sizes space.now) (known pass.old) K.division }
    requires old { K.division.old.row ≡ old }
    requires route { K.division.route ≡ route }
    requires link { K.division.old.place.link ≡ link_word link }
    requires inside { link_word link < row_words * (sizes space.now).rows + row_words }
    ensures frame { CountsSplit result pass.old pass.new }
    ensures done { HasDivided result K.division (known pass.old) (known pass.new) }
    ensures won { result ≡ false → IsMissed K.division.old (known pass.old) }
{
    divide_link::<Divide<K>>(space, pass, link, old, route)
}
