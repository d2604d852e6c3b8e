//! Terms that are kept by their codes.
ghost use Rattle.ca_order.specs.Codes.{AreCodes, AreCodes-prop};

use crate::codes::{Codes, Part};
use ca_term::Terms;
use std::alloc::{AllocError, Global};
use std::marker::Model;

/// Terms that it owns by their codes, one after the other in one piece of memory. Contracts see it as the list of the terms.
#[derive(Drop)]
pub struct CodeList {
    bytes: Vec<u8>,
    count: usize,
    ghost codes: { AreCodes bytes.items } by { AreCodes-prop bytes.items },
}

impl Model for CodeList {
    ghost use Rattle.std.specs.Prelude.{List};
    ghost use Rattle.std.specs.Coded.{coded_list};
    ghost use Rattle.ca_term.specs.Tree.{Tree};
    ghost use Rattle.ca_term.specs.Stored.{tree_stored};

    ghost Value = { List Tree };

    ghost coded = { coded_list tree_stored };

    ghost use Rattle.ca_order.specs.CodeListView.{IsCounted, terms_in};

    ghost view = { terms_in };

    ghost invariant = { IsCounted };
}

impl CodeList {
    ghost use Rattle.std.specs.Prelude.{◌≡◌, ◌++◌, ◌∷◌, [], ◌==◌, length, IfOk, OnErr, OnOk};
    ghost use Rattle.ca_order.specs.CodesView.{terms_of, tree_of};

    /// No terms. It takes no memory.
    pub fn new(alloc: Global) -> CodeList
        ensures { result ≡ [] }
    {
        CodeList {
            bytes: Vec::new(alloc),
            count: 0,
        }
    }

    /// Puts one more term behind the others. `Err` where memory wasn't found: then nothing is changed.
    #[inline(always)]
    pub fn push(&mut self, part: Part<'_>) -> Result<(), AllocError>
        ensures ok { OnOk result (self.new ≡ self.old ++ tree_of part.entry ∷ []) }
        ensures err { OnErr result (self.new ≡ self.old) }
    {
        let Ok(()) = self.bytes.extend_from_slice(part.bytes) else {
            return Err(AllocError);
        };
        self.count += 1;
        Ok(())
    }

    /// How many terms there are.
    #[inline(always)]
    pub fn len(&self) -> usize
        ensures { result ≡ length self.now }
    {
        self.count
    }

    /// Whether there are none.
    pub fn is_empty(&self) -> bool
        ensures { result ≡ (length self.now == 0) }
    {
        self.count == 0
    }

    /// The codes of the terms.
    pub fn codes(&self) -> Codes<'_>
        ensures { terms_of result ≡ self.now }
    {
        Codes {
            bytes: self.bytes.as_slice(),
        }
    }

    /// The terms themselves.
    pub fn terms(&self, alloc: Global) -> Result<Terms, AllocError>
        ensures { IfOk result (λ terms. terms.items ≡ self.now) }
    {
        let mut terms = Terms::new(alloc);
        let Ok(()) = terms.reserve(self.count) else {
            return Err(AllocError);
        };
        let mut left = self.codes();
        while let Some((part, behind)) = left.first() {
            let Ok(()) = terms.push(part.term(alloc)?) else {
                return Err(AllocError);
            };
            left = behind;
        }
        Ok(terms)
    }
}
