//! Ends of calls that are refused.
ghost use Rattle.std.specs.Prelude.{◌≡◌};
ghost use Rattle.ca_model.specs.Known.{Counts, one_more};
ghost use Rattle.ca_node.specs.Told.{IsRise, Refuses, with_upper};
ghost use Rattle.ca_replace.specs.Refusals.{outcome_by};
ghost use Rattle.ca_rows.specs.Passes.{IsOn, KeepsList, known};
ghost use Rattle.ca_node.specs.TreePasses.{tree_of};

use atomic_table::Play;
use ca_model::{Cause, Outcome};
use ca_node::{Knowledge, TreePass, TreeSpace};
use ca_rows::View;
use std::marker::{Brand, PhantomData};

// The word that a refused call loads last.
const LAST: u32 = 0;

/// What a call comes to that is refused by this cause.
pub(crate) fn outcome_by<T>(why: Cause) -> Outcome<T>
    ensures { result ≡ outcome_by why }
{
    match why {
        Cause::Busy(spent) => Outcome::Busy(spent),
        Cause::Full(cause) => Outcome::Full(cause),
        Cause::Deep(level) => Outcome::Deep(level),
        Cause::Worn(counter) => Outcome::Worn(counter),
    }
}

/// How a step changes the counts of refusals. It exists in proofs alone.
pub(crate) trait Counting {
    ghost rise: { Counts → Counts };

    ghost is_rise: { IsRise rise };
}

impl Counting for Brand {
    ghost use Rattle.ca_model.specs.declared.outcome.Cause.TheVariants.{Worn};
    ghost use Rattle.ca_model.specs.declared.outcome.Counter.TheVariants.{Sequence};
    ghost use Rattle.std.proofs.Common.{refl};

    ghost rise = { one_more (Worn Sequence) };

    ghost is_rise = { (Worn Sequence, refl) };
}

/// A load that ends a refused call.
pub(crate) struct CountRefusal<K> {
    counting: PhantomData<K>,
}

impl<K: Counting> Play<(), View<Knowledge>> for CountRefusal<K> {
    ghost then = { λ st m n m'. Refuses K.rise st m n m' };
}

/// Ends a refused call by one load of the pool's head, at which the refusal is counted.
pub(crate) fn refuse(space: &TreeSpace, pass: &mut TreePass, why: Cause)
    requires own { IsOn space.now pass.old }
    ensures frame { KeepsList pass.old pass.new }
    ensures counted { known pass.new ≡ with_upper (known pass.old) (record (tree_of pass.old) { counts = one_more why (tree_of pass.old).counts }) }
{
    refuse_as::<Brand>(space, pass, why);
}

// The load at which the counts change as K names.
fn refuse_as<K: Counting>(space: &TreeSpace, pass: &mut TreePass, _why: Cause)
    requires own { IsOn space.now pass.old }
    ensures frame { KeepsList pass.old pass.new }
    ensures counted { known pass.new ≡ with_upper (known pass.old) (record (tree_of pass.old) { counts = K.rise (tree_of pass.old).counts }) }
{
    space.load::<CountRefusal<K>>(pass, LAST);
}
