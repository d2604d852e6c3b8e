//! What was handed over.
ghost use Rattle.std.specs.Prelude.{◌≡◌};
ghost use Rattle.ca_node.specs.Told.{IsFront};

use crate::rule::TreeRule;
use ca_rows::Half;

/// A copy of what a pass has seen of the history.
pub struct Front {
    pub(crate) half: Half<TreeRule>,
    pub ghost is_front: { IsFront half.seat.me },
}

impl Drop for Front {
    fn drop(self) {
        let Self { half: _ } = self;
    }
}

impl Front {
    pub(crate) fn of(half: Half<TreeRule>) -> Front
        requires { IsFront half.seat.me }
        ensures { result.half ≡ half }
    {
        Front { half }
    }

    pub(crate) fn into_half(self) -> Half<TreeRule>
        ensures half { result ≡ self.half }
        ensures front { IsFront result.seat.me }
    {
        let Self { half } = self;
        half
    }
}
