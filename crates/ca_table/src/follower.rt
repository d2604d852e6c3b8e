//! What whoever owns a table wants to be told of its store: of the calls that ask a function, and whether it is held up.
ghost use Rattle.std.specs.Prelude.{◌≡◌, ◌↔◌, ℕ, ◌≤◌, [], None, IsTrue, length};
ghost use Rattle.ca_term.specs.declared.bounds.TheConstants.{MOST_CODE_BYTES};
ghost use Rattle.ca_model.specs.declared.outcome.Changed.{Changed};
ghost use Rattle.ca_model.specs.declared.outcome.Outcome.{Outcome};
ghost use Rattle.ca_model.specs.Known.{Declines};
ghost use Rattle.ca_model.specs.Function.{KeepsKey, MayBeAskedFor};
ghost use Rattle.ca_model.specs.Answer.{Altered, IfBusy, IfDone, IfRefused, IsNeverDeep, RemovedIf};

use ca_model::{Changed, Code, OrderedStore, Outcome};

/// How a table makes those calls of its store that ask a function, and what its owner is told of them. What a store promises of such a call speaks of
/// the function, which nobody outside the table can name; so whoever follows a store through its table says here, without the function, what he needs
/// of the promise. Each call is the store's own.
pub trait Follower<S: OrderedStore> {
    /// Of a call with this budget: the store before it and behind it, and what it came to.
    ghost asked: { ℕ → S → S → Outcome Changed → Type 0 };

    /// Where the store keeps much that it can give back only behind others.
    ghost held_up: { S → Type 0 };

    /// Whether that is so: then the others should go on before its next call.
    fn is_held_up(store: &S) -> bool
        ensures held_up { IsTrue result ↔ held_up store.now };

    /// The store's `remove_if`.
    fn remove_if<F: Fn(&[u8]) -> bool>(
        store: &mut S,
        key: &[u8],
        f: &F,
        old: &mut Code,
        budget: u32,
    ) -> Outcome<Changed>
        requires budget { 1 ≤ budget }
        requires closed { (S.knows store.old).run ≡ None }
        requires key { (1 ≤ length key.now) × (length key.now ≤ MOST_CODE_BYTES) }
        requires function { MayBeAskedFor F.Fn f.now (S.knows store.old).keypos key.now }
        ensures removed { IfDone result (λ changed. RemovedIf F.Fn f.now (S.knows store.old) (S.knows store.new) key.now changed old.new.items) }
        ensures refused { IfRefused result (λ rise. Declines (S.knows store.old) (S.knows store.new) (rise (S.knows store.old).counts)) }
        ensures never_deep { IsNeverDeep result }
        ensures busy { IfBusy result (λ spent. budget ≤ spent) }
        ensures closed { (S.knows store.new).run ≡ None }
        ensures asked { asked budget store.old store.new result };

    /// The store's `change`.
    fn change<F: Fn(&[u8], &mut Code, &mut usize) -> bool>(
        store: &mut S,
        key: &[u8],
        f: &F,
        old: &mut Code,
        budget: u32,
    ) -> Outcome<Changed>
        requires budget { 1 ≤ budget }
        requires closed { (S.knows store.old).run ≡ None }
        requires key { (1 ≤ length key.now) × (length key.now ≤ MOST_CODE_BYTES) }
        requires function { KeepsKey F.Fn f.now (S.knows store.old).keypos key.now }
        ensures changed { IfDone result (λ changed. Altered F.Fn f.now (S.knows store.old) (S.knows store.new) key.now changed old.new.items) }
        ensures refused { IfRefused result (λ rise. Declines (S.knows store.old) (S.knows store.new) (rise (S.knows store.old).counts)) }
        ensures never_deep { IsNeverDeep result }
        ensures busy { IfBusy result (λ spent. budget ≤ spent) }
        ensures closed { (S.knows store.new).run ≡ None }
        ensures asked { asked budget store.old store.new result };
}

/// Nobody follows the store: nothing is told beyond the trait, and the store is never held up.
#[derive(Clone, Copy, Debug)]
pub struct Unfollowed;

impl<S: OrderedStore> Follower<S> for Unfollowed {
    ghost asked = { λ budget s t outcome. Unit {0} };

    ghost held_up = { λ s. ⊥ };

    fn is_held_up(_store: &S) -> bool {
        false
    }

    fn remove_if<F: Fn(&[u8]) -> bool>(
        store: &mut S,
        key: &[u8],
        f: &F,
        old: &mut Code,
        budget: u32,
    ) -> Outcome<Changed> {
        store.remove_if(key, f, old, budget)
    }

    fn change<F: Fn(&[u8], &mut Code, &mut usize) -> bool>(
        store: &mut S,
        key: &[u8],
        f: &F,
        old: &mut Code,
        budget: u32,
    ) -> Outcome<Changed> {
        store.change(key, f, old, budget)
    }
}
