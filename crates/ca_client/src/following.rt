//! What is told of a store on the tree: of its calls that ask a function, and whether it is held up.
ghost use Rattle.ca_client.specs.Following.{asked_on_tree, keeps_many};

use ca_model::{Changed, Code, OrderedStore, Outcome};
use ca_replace::TreeStore;
use ca_table::Follower;

// Behind how many kept rows a store on the tree is held up. A call that edits leaves 64 at most, unless another pass lags.
const MANY_ROWS: u32 = 256;

// It is told all that such a store promises of them, which doesn't speak of the function.
pub(crate) struct OnTree;

impl<'t> Follower<TreeStore<'t>> for OnTree {
    ghost asked = { asked_on_tree };

    ghost held_up = { keeps_many };

    fn is_held_up(store: &TreeStore<'t>) -> bool {
        store.kept() > MANY_ROWS
    }

    fn remove_if<F: Fn(&[u8]) -> bool>(
        store: &mut TreeStore<'t>,
        key: &[u8],
        f: &F,
        old: &mut Code,
        budget: u32,
    ) -> Outcome<Changed> {
        store.remove_if(key, f, old, budget)
    }

    fn change<F: Fn(&[u8], &mut Code, &mut usize) -> bool>(
        store: &mut TreeStore<'t>,
        key: &[u8],
        f: &F,
        old: &mut Code,
        budget: u32,
    ) -> Outcome<Changed> {
        store.change(key, f, old, budget)
    }
}
