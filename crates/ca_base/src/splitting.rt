//! A base is split: a route over two halves takes its place.
ghost use Rattle.ca_rows.specs.Layout.{row_words};
ghost use Rattle.std.specs.Prelude.{◌≡◌, ◌≢◌, ◌+◌, ◌*◌, ◌<◌, ◌≤◌, [], ◌∷◌, map, Err};
ghost use Rattle.ca_model.specs.StoreMap.{IsStoreMap};
ghost use Rattle.ca_node.specs.Inventory.{IsListed};
ghost use Rattle.ca_node.specs.Row.{pair};
ghost use Rattle.ca_node.specs.Told.{IsDivision, link_word};
ghost use Rattle.ca_node.specs.States.{IsAlone};
ghost use Rattle.ca_node.specs.Links.{AreApart};
ghost use Rattle.ca_base.specs.Counting.{IsSpent, HasCleared, HasFound, HasPutBack};
ghost use Rattle.ca_base.specs.Crowded.{FindsCrowded};
ghost use Rattle.ca_base.specs.Targets.{IsTarget};
ghost use Rattle.ca_base.specs.Splitting.{HasTakenThree, HasSplit, IsHalving, split_forms};
ghost use Rattle.ca_base.specs.Taking.{AreHeld, MayTake};
ghost use Rattle.ca_base.specs.declared.stop.Exchange.TheVariants.{Link as IsLink};
ghost use Rattle.ca_base.specs.declared.stop.Stop.TheVariants.{Lost as IsLost};
ghost use Rattle.ca_rows.specs.Passes.{IsOn, IsStillPass, sizes, known, view};
ghost use Rattle.ca_node.specs.TreePasses.{tree_of};
ghost use Rattle.ca_base.specs.Readiness.{IsReady, StaysReady, shown_last};

use crate::copying::Run;
use crate::reading::item;
use crate::routing::{Fork, copy_key, write_half, write_route};
use crate::spending::lose;
use crate::stop::{Exchange, Stop};
use crate::swapping::{give_back_all, retire_unlinked};
use crate::taking::{take, take_two};
use ca_model::{Code, Spent};
use ca_node::{BASE_FORM, Cursor, OBJECT_FORM, Plan, TreePass, TreeSpace, divide_base};
use std::marker::Brand;

// How many objects a base has that is split, and how many attempts to join its route is said to have had.
#[derive(Clone, Copy)]
struct Halving {
    many: u32,
    attempt: u64,
}

/// Splits the base that was shown last, which has so many objects: a route with the key of the first object of the right half takes its place, over
/// two bases with the halves. It takes three rows. A pass that is alone and lists the base loses no exchange of a link.
pub fn split_at(
    space: &TreeSpace,
    pass: &mut TreePass,
    cursor: Cursor,
    many: u32,
    attempt: u64,
    spent: &mut Spent,
) -> Result<(), Stop>
    requires ready { IsReady space.now pass.old }
    requires target { IsTarget (sizes space.now) (tree_of pass.old) cursor many }
    requires two { 2 ≤ many }
    requires ordered { IsStoreMap (sizes space.now).keypos (map pair (shown_last pass.old).objects) }
    requires above { cursor.level < (sizes space.now).levels }
    requires attempt { attempt < 4611686018427387904 }
    ensures frame { StaysReady space.now pass.old pass.new }
    ensures split { HasSplit many attempt result (tree_of pass.old) (tree_of pass.new) }
    ensures won { IsAlone (sizes space.now) (tree_of pass.old) → IsListed (tree_of pass.old).inventory (shown_last pass.old) → result ≢ Err (IsLost IsLink) }
    ensures counted { IsSpent spent.old spent.new (known pass.old) (known pass.new) }
    ensures found { HasFound result (known pass.old) (known pass.new) }
    ensures crowded { FindsCrowded result (known pass.old) (known pass.new) }
    ensures back { HasCleared split_forms cursor.base [] result (known pass.old) (known pass.new) pass.old.kept pass.new.kept }
{
    let (route, left, right) = take_three(space, pass, spent)?;
    let base = cursor.base;
    let middle = many / 2;
    let below = cursor.level + 1;
    let front = Run {
        base,
        from: 0,
        count: middle,
    };
    let back = Run {
        base,
        from: middle,
        count: many - middle,
    };
    write_half(space, pass, left, below, front);
    write_half(space, pass, right, below, back);
    let first = item(space, pass, base, middle);
    let mut key = Code::new();
    copy_key(space, pass, first, &mut key);
    let fork = Fork { route, left, right };
    write_route(space, pass, fork, cursor.level, &key, attempt);
    let halving = Halving { many, attempt };
    divide_in::<Brand>(space, pass, cursor, fork, halving, spent)
}

// Takes three rows: one for a route, where it takes a former object, so that the former bases are left to bases, and two for bases. Where it finds fewer,
// they are put back.
fn take_three(
    space: &TreeSpace,
    pass: &mut TreePass,
    spent: &mut Spent,
) -> Result<(u32, u32, u32), Stop>
    requires may { MayTake space.now pass.old }
    requires none { AreHeld (sizes space.now).rows pass.old.kept.rows (view pass.old) [] }
    ensures frame { IsStillPass pass.old pass.new }
    ensures taken { HasTakenThree result (AreHeld (sizes space.now).rows pass.new.kept.rows (view pass.new)) }
    ensures counted { IsSpent spent.old spent.new (known pass.old) (known pass.new) }
    ensures found { HasFound result (known pass.old) (known pass.new) }
    ensures crowded { FindsCrowded result (known pass.old) (known pass.new) }
    ensures head { result ≢ Err (IsLost IsLink) }
    ensures back { HasPutBack split_forms result (known pass.old) (known pass.new) pass.old.kept pass.new.kept }
{
    let (first, second) = take_two(space, pass, (BASE_FORM, BASE_FORM), spent)?;
    match take(space, pass, OBJECT_FORM, spent) {
        Ok(third) => Ok((third, first, second)),
        Err(why) => {
            give_back_all(space, pass, &[first, second], BASE_FORM, spent);
            Err(why)
        }
    }
}

// Carries out the split that `K` names, by one exchange of the base that was shown last against the route, and retires the base then. Where the
// exchange is lost, the rows that were written are put back. The halving is handed on for the contract alone, which says that the written rows tell so.
fn divide_in<K: Plan>(
    space: &TreeSpace,
    pass: &mut TreePass,
    cursor: Cursor,
    fork: Fork,
    _halving: Halving,
    spent: &mut Spent,
) -> Result<(), Stop>
    requires own { IsOn space.now pass.old }
    requires division { IsDivision (sizes space.now) (known pass.old) K.division × IsHalving _halving.many _halving.attempt K.division }
    requires last { shown_last pass.old ≡ K.division.old }
    requires rows { (K.division.old.row ≡ cursor.base) × (K.division.route ≡ fork.route) × (K.division.left ≡ fork.left) × (K.division.right ≡ fork.right) }
    requires link { K.division.old.place.link ≡ link_word cursor.link }
    requires inside { link_word cursor.link < row_words * (sizes space.now).rows + row_words }
    requires apart { AreApart (fork.route ∷ fork.left ∷ fork.right ∷ []) }
    requires held { AreHeld (sizes space.now).rows pass.old.kept.rows (view pass.old) (fork.route ∷ fork.left ∷ fork.right ∷ []) }
    ensures frame { StaysReady space.now pass.old pass.new }
    ensures split { HasSplit _halving.many _halving.attempt result (tree_of pass.old) (tree_of pass.new) }
    ensures won { IsAlone (sizes space.now) (tree_of pass.old) → IsListed (tree_of pass.old).inventory K.division.old → result ≢ Err (IsLost IsLink) }
    ensures counted { IsSpent spent.old spent.new (known pass.old) (known pass.new) }
    ensures found { HasFound result (known pass.old) (known pass.new) }
    ensures crowded { FindsCrowded result (known pass.old) (known pass.new) }
    ensures back { HasCleared [] cursor.base [] result (known pass.old) (known pass.new) pass.old.kept pass.new.kept }
{
    let (link, base) = (cursor.link, cursor.base);
    if !divide_base::<K>(space, pass, link, base, fork.route) {
        lose(spent);
        let rows = [fork.route, fork.left, fork.right];
        give_back_all(space, pass, &rows, BASE_FORM, spent);
        return Err(Stop::Lost(Exchange::Link));
    }
    retire_unlinked(space, pass, base, BASE_FORM);
    Ok(())
}
