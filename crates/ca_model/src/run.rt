//! Where the parts of a list of objects begin and end that two edges give.
ghost use Rattle.std.specs.Prelude.{◌≡◌, ◌≤◌, ℕ, drop, length, take};
ghost use Rattle.ca_model.specs.StoreMap.{IsStoreMap};
ghost use Rattle.ca_model.specs.Edges.{bound_of, from, up_to};
ghost use Rattle.ca_model.specs.RunView.{ArePlaces};

use crate::edge::Edge;
use crate::slab::Slab;

// What an open run has left: the objects from one place on, and before another one.
#[derive(Clone, Copy)]
pub(crate) struct Run {
    pub(crate) next: usize,
    pub(crate) end: usize,
}

// How many objects stand before a lower edge, whose key may stand at this place.
pub(crate) fn start_of(objects: &Slab, lo: Edge<'_>, near: usize) -> usize
    requires { (keypos : ℕ) × IsStoreMap keypos objects.now.pairs }
    ensures range { result ≤ length objects.now.pairs }
    ensures start { from (bound_of lo.entry) objects.now.pairs ≡ drop result objects.now.pairs }
{
    match lo {
        Edge::Open => 0,
        Edge::At(key) => places(objects, key, near).0,
        Edge::Past(key) => places(objects, key, near).1,
    }
}

// How many objects stand before the end of an upper edge, whose key may stand at this place.
pub(crate) fn end_of(objects: &Slab, hi: Edge<'_>, near: usize) -> usize
    requires { (keypos : ℕ) × IsStoreMap keypos objects.now.pairs }
    ensures range { result ≤ length objects.now.pairs }
    ensures end { up_to (bound_of hi.entry) objects.now.pairs ≡ take result objects.now.pairs }
{
    match hi {
        Edge::Open => objects.len(),
        Edge::At(key) => places(objects, key, near).1,
        Edge::Past(key) => places(objects, key, near).0,
    }
}

// How many objects have a less key, and how many have no greater one.
fn places(objects: &Slab, key: &[u8], near: usize) -> (usize, usize)
    requires { (keypos : ℕ) × IsStoreMap keypos objects.now.pairs }
    ensures { ArePlaces objects.now.pairs key.now result.0 result.1 }
{
    // A place behind one that was found is at most this.
    let _count = objects.len();
    match objects.find_near(key, near) {
        Ok(at) => (at, at + 1),
        Err(at) => (at, at),
    }
}
