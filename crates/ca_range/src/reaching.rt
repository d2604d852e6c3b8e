//! Up to where a range goes.
ghost use Rattle.std.specs.Prelude.{◌≡◌, ◌≤◌, ℕ, List, true};
ghost use Rattle.ca_model.specs.Edges.{Excluded};
ghost use Rattle.ca_node.specs.Row.{count, route_key};
ghost use Rattle.ca_node.specs.TreePasses.{tree_of};
ghost use Rattle.ca_node.specs.TreeView.{Border};
ghost use Rattle.ca_range.specs.Reaching.{IsBorderShown, IsKeyShown, reaches_by};
ghost use Rattle.ca_rows.specs.Passes.{OnlyReads, IsReading, sizes};

use ca_base::append;
use ca_model::Code;
use ca_node::{COUNT_LIMIT, KEY, TO_KEY, TO_NO_END, TreePass, TreeSpace, load_word};
use ca_term::MOST_CODE_BYTES;

/// Whether a base that has all keys up to this one, but for the key itself, has all up to where a range goes, as this row says. Of a row whose
/// key is longer than any that a range goes up to it says no.
pub(crate) fn reaches(space: &TreeSpace, pass: &mut TreePass, border: u32, key: &[u8]) -> bool
    requires reading { IsReading space.now pass.old }
    requires inside { border ≤ (sizes space.now).rows }
    requires shown { (x : Border) × IsBorderShown (tree_of pass.old) border x }
    ensures frame { OnlyReads pass.old pass.new }
    ensures reaches { (x : Border) → IsBorderShown (tree_of pass.old) border x → result ≡ true → reaches_by x.its (Excluded key.now) ≡ true }
    ensures exact { (x : Border) → IsBorderShown (tree_of pass.old) border x → count x.its ≤ 1000 → result ≡ reaches_by x.its (Excluded key.now) }
{
    let word = load_word(space, pass, border, 0);
    let edge = word / COUNT_LIMIT % (1 << 40);
    if edge == TO_NO_END {
        return false;
    }
    if word % COUNT_LIMIT > 1_000 {
        return false;
    }
    let mut end = Code::new();
    copy_key(space, pass, border, &mut end);
    let order = end[..].cmp(key);
    if edge == TO_KEY {
        order.is_lt()
    } else {
        order.is_le()
    }
}

/// Copies the key of a route, or of a row that says up to where a range goes, eight bytes at a time.
pub fn copy_key(space: &TreeSpace, pass: &mut TreePass, row: u32, into: &mut Code)
    requires reading { IsReading space.now pass.old }
    requires inside { row ≤ (sizes space.now).rows }
    requires shown { (its : List ℕ) × IsKeyShown (tree_of pass.old) row its }
    ensures frame { OnlyReads pass.old pass.new }
    ensures key { (its : List ℕ) → IsKeyShown (tree_of pass.old) row its → into.new.items ≡ route_key its }
{
    let len = MOST_CODE_BYTES.min((load_word(space, pass, row, 0) % COUNT_LIMIT) as usize);
    into.clear();
    for i in 0..(len + 7) / 8 {
        let bytes = load_word(space, pass, row, KEY + i as u32).to_be_bytes();
        append(into, &bytes[..(len - 8 * i).min(8)]);
    }
}
