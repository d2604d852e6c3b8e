//! A seat at rest. Nobody steps with it through a `&`, so threads may share what it lies in.
ghost use Rattle.std.specs.Prelude.{◌≡◌};
ghost use base.Fml.{ftrue};

use atomic_table::Seat;
use std::marker::Model;

pub(crate) struct Rest<S, V> {
    pub(crate) seat: Seat<S, V>,
}

impl<S, V> Model for Rest<S, V> {
    ghost also_owns = { λ _. ftrue };
}

impl<S, V> Rest<S, V> {
    pub(crate) fn lay(seat: Seat<S, V>) -> Rest<S, V>
        ensures { result.seat ≡ seat }
    {
        Rest { seat }
    }

    pub(crate) fn take_up(self) -> Seat<S, V>
        ensures { result ≡ self.seat }
    {
        let Rest { seat } = self;
        seat
    }
}

impl<S, V> Drop for Rest<S, V> {
    fn drop(self) {
        drop(self.take_up());
    }
}

unsafe impl<S: Send, V> Send for Rest<S, V> {}

unsafe impl<S: Send, V> Sync for Rest<S, V> {}
