//! What a call spends.
ghost use Rattle.std.specs.Prelude.{◌≡◌, ◌+◌, min};

use ca_model::Spent;

/// Adds a lost exchange to what was spent, up to the last number that 32 bits hold.
pub fn lose(spent: &mut Spent)
    ensures lost { spent.new.lost ≡ min 4294967295 (spent.old.lost + 1) }
    ensures others { (spent.new.helped ≡ spent.old.helped) × (spent.new.passed ≡ spent.old.passed) }
{
    spent.lost = spent.lost.saturating_add(1);
}
