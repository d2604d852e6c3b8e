//! Routes that are unlinked.
ghost use Rattle.ca_rows.specs.Layout.{row_words};
ghost use Rattle.std.specs.Prelude.{◌≡◌, ◌+◌, ◌*◌, ◌<◌, false};
ghost use Rattle.ca_node.specs.Told.{link_word};
ghost use Rattle.ca_node.specs.States.{IsAlone};
ghost use Rattle.ca_node.specs.TreePasses.{tree_of};
ghost use Rattle.ca_node.specs.Unlinks.{IsUnlinking, HasUnlinked};
ghost use Rattle.ca_rows.specs.Passes.{CountsJoin, IsOn, sizes, known};

use crate::link::Link;
use crate::plays::{Unlink, Unlinks};
use crate::rule::{TreePass, TreeSpace};
use crate::steps::join_link;

/// One exchange of a link, of a route whose join is secured against a base that the pass wrote, with the objects of both bases under the route: it carries out
/// the join that `K` names, by which no object comes or goes. True exactly where this exchange won: the route and both bases are unlinked by the pass then, and
/// its tally has one join more. False where it was lost, which is counted, and isn't so where the pass is the only one of the space. Either way the pass
/// remembers no base and no route any more, and the attempt is none of its own.
pub fn unlink_route<K: Unlinks>(
    space: &TreeSpace,
    pass: &mut TreePass,
    above: Link,
    route: u32,
    new: u32,
) -> bool
    requires own { IsOn space.now pass.old }
    requires unlinking { IsUnlinking (sizes space.now) (known pass.old) new K.unlinking }
    requires route { K.unlinking.way.row ≡ route }
    requires link { K.unlinking.way.place.link ≡ link_word above }
    requires inside { link_word above < row_words * (sizes space.now).rows + row_words }
    ensures frame { CountsJoin result pass.old pass.new }
    ensures done { HasUnlinked result new K.unlinking (known pass.old) (known pass.new) }
    ensures several { result ≡ false → ¬ IsAlone (sizes space.now) (tree_of pass.old) }
{
    join_link::<Unlink<K>>(space, pass, above, route, new)
}
