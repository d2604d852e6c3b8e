//! What is done to a table's store between two calls.
ghost use Rattle.std.specs.Prelude.{◌≡◌, None};

use ca_model::OrderedStore;

/// Something that may be done to a table's store between two calls of the table, and by which nothing changes that is known of the store.
pub trait Upkeep<S: OrderedStore> {
    /// Does it, and answers whether doing it again may come to more.
    fn tend(&self, store: &mut S) -> bool
        requires closed { (S.knows store.old).run ≡ None }
        ensures same { S.knows store.new ≡ S.knows store.old };
}
