//! A list of terms.
ghost use Rattle.std.specs.Prelude.{◌≡◌, ◌≤◌, ◌<◌, ◌+◌, [], ◌∷◌, ◌++◌, length, slice_index_or, slice_set, IsOk, IsTrue, OnOk, OnErr, IfErr, ◌↔◌};
ghost use Rattle.ca_term.specs.TermList.{TermList};

use crate::fault::TermFault;
use crate::term::Term;
use std::alloc::Global;
use std::marker::Model;
use std::mem;

/// A list of terms that grows at its end. Contracts see its items, and how many more find room without memory.
#[derive(Drop)]
pub struct Terms {
    pub(crate) items: Vec<Term>,
}

impl Model for Terms {
    ghost use Rattle.ca_term.specs.TermList.{TermList, list_stored};

    ghost Value = { TermList };

    ghost coded = { list_stored };

    ghost use Rattle.ca_term.specs.TermListView.{terms_of, AreKept};

    ghost view = { terms_of };

    ghost invariant = { AreKept };
}

impl Terms {
    /// No terms, and no room: it takes no memory.
    pub fn new(alloc: Global) -> Terms
        ensures items { result.items ≡ [] }
        ensures spare { result.spare ≡ 0 }
    {
        Terms {
            items: Vec::new(alloc),
        }
    }

    /// Makes room for at least this many more terms. A refusal changes nothing.
    pub fn reserve(&mut self, more: usize) -> Result<(), TermFault>
        ensures items { self.new.items ≡ self.old.items }
        ensures room { OnOk result (more ≤ self.new.spare) }
        ensures grows { self.old.spare ≤ self.new.spare }
        ensures enough { more ≤ self.old.spare → IsOk result }
        ensures err { OnErr result (self.new ≡ self.old) }
        ensures cause { IfErr result (λ e. e ≡ TermFault.NoMemory) }
    {
        self.items.reserve(more)?;
        Ok(())
    }

    /// Adds a term at the end. Where there is room it takes no memory; a refusal drops the term and changes nothing.
    #[tactic(auto, using(crate::proofs::Rows::AreTerms_push))]
    pub fn push(&mut self, item: Term) -> Result<(), TermFault>
        ensures ok { OnOk result (self.new.items ≡ self.old.items ++ item ∷ []) }
        ensures enough { 1 ≤ self.old.spare → IsOk result }
        ensures spare { 1 ≤ self.old.spare → self.new.spare + 1 ≡ self.old.spare }
        ensures err { OnErr result (self.new ≡ self.old) }
        ensures cause { IfErr result (λ e. e ≡ TermFault.NoMemory) }
    {
        let _ = &item.depth;
        if self.items.len() == self.items.capacity() {
            self.items.reserve(1)?;
        }
        self.items.push_reserved(item);
        Ok(())
    }

    /// Puts a term in the place of the one at `i`, counted from 0, which is dropped. It takes no memory.
    #[tactic(auto, using(crate::proofs::Rows::AreTerms_set))]
    pub fn set(&mut self, i: usize, item: Term)
        requires { i < length self.old.items }
        ensures items { self.new.items ≡ slice_set self.old.items i item }
        ensures spare { self.new.spare ≡ self.old.spare }
    {
        let _ = &item.depth;
        let _old = mem::replace(&mut self.items[i], item);
    }

    /// How many terms there are.
    pub fn len(&self) -> usize
        ensures { result ≡ length self.now.items }
    {
        self.items.len()
    }

    /// Whether there are none.
    pub fn is_empty(&self) -> bool
        ensures { IsTrue result ↔ (self.now.items ≡ []) }
    {
        self.items.is_empty()
    }

    /// The term at a place, counted from 0.
    pub fn at(&self, i: usize) -> &Term
        requires { i < length self.now.items }
        ensures { result.now ≡ slice_index_or self.now.items i result.now }
    {
        &self.items[i]
    }

    /// The terms, in order.
    pub fn as_slice(&self) -> &[Term]
        ensures { result.now ≡ self.now.items }
    {
        self.items.as_slice()
    }
}
