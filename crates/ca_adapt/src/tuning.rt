//! By which numbers the tree adapts.
ghost use Rattle.std.specs.Prelude.{◌↔◌, IsTrue};
ghost use Rattle.ca_adapt.specs.Allowed.{IsAllowed, IsWide, IsWithin, MovesWithin};

/// How large bases grow, how deep the tree, and how a base's statistic moves: it rises where exchanges are lost, and a base whose statistic
/// leaves its bounds is split or joined.
#[derive(Clone, Copy, Debug)]
pub struct Tuning {
    /// How many objects a base has at most, from 2 to 120.
    pub leaf: u8,
    /// At which level no base is split any more, up to 4,096.
    pub levels: u16,
    /// What an update adds to the statistic that lost an exchange, from 0 to 1,000,000.
    pub lost: i32,
    /// What any other update adds, from -1,000,000 to 1,000,000.
    pub calm: i32,
    /// What a range adds that goes on past the base, from -1,000,000 to 0.
    pub range: i32,
    /// Above this statistic a base is split, from 0 to 1,000,000.
    pub high: i32,
    /// Below this one it is joined, from -1,000,000 to 0.
    pub low: i32,
}

impl Tuning {
    /// Whether each number is within its bounds.
    pub fn is_allowed(&self) -> bool
        ensures { IsTrue result ↔ IsAllowed self.now }
    {
        2 <= self.leaf
            && self.leaf <= 120
            && self.levels <= 4_096
            && self.moves_within()
            && self.is_wide()
    }

    // Whether no step of the statistic is too large.
    fn moves_within(&self) -> bool
        ensures { IsTrue result ↔ MovesWithin self.now }
    {
        is_within(self.lost, 0, 1_000_000)
            && is_within(self.calm, -1_000_000, 1_000_000)
            && is_within(self.range, -1_000_000, 0)
    }

    // Whether 0 is within the bounds of the statistic, and they aren't too far from it.
    fn is_wide(&self) -> bool
        ensures { IsTrue result ↔ IsWide self.now }
    {
        is_within(self.high, 0, 1_000_000) && is_within(self.low, -1_000_000, 0)
    }
}

// Whether the number is neither below nor above these bounds.
fn is_within(number: i32, least: i32, most: i32) -> bool
    ensures { IsTrue result ↔ IsWithin least most number }
{
    least <= number && number <= most
}
