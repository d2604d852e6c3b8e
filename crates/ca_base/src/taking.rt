//! Rows are taken for a call, and put back.
ghost use Rattle.std.specs.Prelude.{◌≡◌, ◌≢◌, Err, ◌<◌, ℕ, List, [], ◌∷◌, length};
ghost use Rattle.ca_node.specs.Links.{IsIn};
ghost use Rattle.ca_base.specs.Counting.{IsSpent, HasFound, HasMet, HasPutBack, KeepsLost, PutsBack, losses};
ghost use Rattle.ca_base.specs.Crowded.{FindsCrowded, StaysCrowded};
ghost use Rattle.ca_base.specs.declared.stop.Exchange.TheVariants.{Link as IsLink};
ghost use Rattle.ca_base.specs.declared.stop.Stop.TheVariants.{Lost as IsLost};
ghost use Rattle.ca_base.specs.Taking.{AreHeld, HasTaken, HasTakenTwo, MayTake, TakesOldest, TakesTwo};
ghost use Rattle.ca_rows.specs.Kept.{AreKept, AreYoung};
ghost use Rattle.ca_rows.specs.Passes.{IsOn, IsStillPass, StillKeepsList, sizes, known, view};
ghost use Rattle.ca_rows.specs.Told.{IsOnly};

use crate::spending::lose;
use crate::stop::{Exchange, Stop};
use ca_model::Spent;
use ca_node::{TreePass, TreeSpace};
use ca_rows::Taken;

/// Takes a row: of those that the pass keeps, and on which nobody can have a note any more, the oldest one of this form, or else the oldest one; where it
/// keeps no such row, a free one. A pass that is the only one which the space is for loses no exchange by it; where none is free, it knows of all rows but
/// eight at most that they are linked, or that it keeps them.
pub fn take(
    space: &TreeSpace,
    pass: &mut TreePass,
    like: u32,
    spent: &mut Spent,
) -> Result<u32, Stop>
    requires may { MayTake space.now pass.old }
    ensures frame { IsStillPass pass.old pass.new }
    ensures taken { (held : List ℕ) → length held < 8 → AreHeld (sizes space.now).rows pass.old.kept.rows (view pass.old) held
        → HasTaken result held (AreHeld (sizes space.now).rows pass.new.kept.rows (view pass.new)) }
    ensures counted { IsSpent spent.old spent.new (known pass.old) (known pass.new) }
    ensures only { IsOnly (known pass.old) → losses (known pass.new) ≡ losses (known pass.old) }
    ensures found { HasFound result (known pass.old) (known pass.new) }
    ensures head { result ≢ Err (IsLost IsLink) }
    ensures crowded { (held : List ℕ) → length held < 8 → AreHeld (sizes space.now).rows pass.old.kept.rows (view pass.old) held
        → FindsCrowded result (known pass.old) (known pass.new) }
    ensures back { HasPutBack (like ∷ []) result (known pass.old) (known pass.new) pass.old.kept pass.new.kept }
    ensures oldest { TakesOldest result (view pass.old).pin.told like pass.old.kept.rows.items pass.new.kept.rows.items }
{
    match space.reuse_row(pass, like) {
        Some(row) => Ok(row),
        None => take_free(space, pass, spent),
    }
}

// Takes a free row, where the pass keeps none that it may hold again.
fn take_free(space: &TreeSpace, pass: &mut TreePass, spent: &mut Spent) -> Result<u32, Stop>
    requires own { IsOn space.now pass.old }
    requires list { AreKept (sizes space.now).rows (view pass.old).claims pass.old.kept.rows }
    requires young { AreYoung (view pass.old).pin.told pass.old.kept.rows.items }
    ensures frame { StillKeepsList pass.old pass.new }
    ensures taken { (held : List ℕ) → length held < 8 → AreHeld (sizes space.now).rows pass.old.kept.rows (view pass.old) held
        → HasTaken result held (AreHeld (sizes space.now).rows pass.new.kept.rows (view pass.new)) }
    ensures counted { IsSpent spent.old spent.new (known pass.old) (known pass.new) }
    ensures only { IsOnly (known pass.old) → losses (known pass.new) ≡ losses (known pass.old) }
    ensures found { HasFound result (known pass.old) (known pass.new) }
    ensures head { result ≢ Err (IsLost IsLink) }
    ensures crowded { (held : List ℕ) → length held < 8 → AreHeld (sizes space.now).rows pass.old.kept.rows (view pass.old) held
        → FindsCrowded result (known pass.old) (known pass.new) }
    ensures back { HasPutBack [] result (known pass.old) (known pass.new) pass.old.kept pass.new.kept }
{
    match space.take_row(pass) {
        Taken::Row(row) => Ok(row),
        Taken::Empty => Err(Stop::Empty),
        Taken::Lost => {
            lose(spent);
            Err(Stop::Lost(Exchange::Head))
        }
        Taken::Worn => Err(Stop::Worn),
    }
}

/// Takes two rows, one for each of these forms. Where it finds but one, that one is put back.
pub fn take_two(
    space: &TreeSpace,
    pass: &mut TreePass,
    likes: (u32, u32),
    spent: &mut Spent,
) -> Result<(u32, u32), Stop>
    requires may { MayTake space.now pass.old }
    requires none { AreHeld (sizes space.now).rows pass.old.kept.rows (view pass.old) [] }
    ensures frame { IsStillPass pass.old pass.new }
    ensures taken { HasTakenTwo result (AreHeld (sizes space.now).rows pass.new.kept.rows (view pass.new)) }
    ensures counted { IsSpent spent.old spent.new (known pass.old) (known pass.new) }
    ensures only { IsOnly (known pass.old) → losses (known pass.new) ≡ losses (known pass.old) }
    ensures found { HasFound result (known pass.old) (known pass.new) }
    ensures head { result ≢ Err (IsLost IsLink) }
    ensures crowded { FindsCrowded result (known pass.old) (known pass.new) }
    ensures back { HasPutBack (likes.0 ∷ likes.1 ∷ []) result (known pass.old) (known pass.new) pass.old.kept pass.new.kept }
    ensures oldest { TakesTwo result (view pass.old).pin.told likes pass.old.kept.rows.items pass.new.kept.rows.items }
{
    let first = take(space, pass, likes.0, spent)?;
    match take(space, pass, likes.1, spent) {
        Ok(second) => Ok((first, second)),
        Err(why) => {
            give_back(space, pass, first, likes.0, spent);
            Err(why)
        }
    }
}

/// Puts a row back that the pass holds. Where that is lost to another pass the row is retired, and so it is kept, as one of this form.
pub fn give_back(space: &TreeSpace, pass: &mut TreePass, row: u32, form: u32, spent: &mut Spent)
    requires own { IsOn space.now pass.old }
    requires held { (rest : List ℕ) × (¬ IsIn row rest) × AreHeld (sizes space.now).rows pass.old.kept.rows (view pass.old) (row ∷ rest) }
    ensures frame { IsStillPass pass.old pass.new }
    ensures given { (rest : List ℕ) → ¬ IsIn row rest → AreHeld (sizes space.now).rows pass.old.kept.rows (view pass.old) (row ∷ rest)
        → AreHeld (sizes space.now).rows pass.new.kept.rows (view pass.new) rest }
    ensures counted { IsSpent spent.old spent.new (known pass.old) (known pass.new) }
    ensures only { IsOnly (known pass.old) → losses (known pass.new) ≡ losses (known pass.old) }
    ensures met { HasMet 0 0 (known pass.old) (known pass.new) }
    ensures crowded { StaysCrowded (known pass.old) (known pass.new) }
    ensures back { PutsBack [] 0 (known pass.old) (known pass.new) pass.old.kept pass.new.kept }
    ensures kept { KeepsLost form row (known pass.old) (known pass.new) pass.old.kept.rows.items pass.new.kept.rows.items }
{
    if !space.put_row(pass, row) {
        lose(spent);
        space.retire(pass, row, form);
    }
}
