//! Constants of heads and expressions, with their codes.

use ca_order::{Code, Part, encode};
use ca_term::{Term, TermFault, try_copy};
use std::alloc::Global;
use std::marker::Model;

/// A term that stands for itself, with its code, unless that is longer than a code may be. Contracts see it as the term.
#[derive(Drop)]
pub(crate) struct Constant {
    term: Term,
    code: Option<Vec<u8>>,
}

impl Model for Constant {
    ghost use Rattle.ca_term.specs.Tree.{Tree};
    ghost use Rattle.ca_term.specs.Stored.{tree_stored};

    ghost Value = { Tree };

    ghost coded = { tree_stored };

    ghost use Rattle.ca_spec.specs.ConstantView.{IsCoded};

    ghost view = { λ constant. constant.term };

    ghost invariant = { IsCoded };
}

impl Constant {
    ghost use Rattle.std.specs.Prelude.{◌≡◌, false, IfOk, IfErr, MatchOption, is_some};
    ghost use Rattle.ca_term.specs.Object.{fits};
    ghost use Rattle.ca_order.specs.CodesView.{tree_of};

    // This term.
    pub(crate) fn of(alloc: Global, term: &Term) -> Result<Constant, TermFault>
        ensures { IfOk result (λ constant. constant ≡ term.now) }
    {
        let copy = try_copy(alloc, term)?;
        let _kind = copy.kind();
        let mut room = Code::new();
        let code = match encode(term, &mut room) {
            Ok(()) => Some(room.as_slice().to_vec(alloc)?),
            Err(_) => None,
        };
        Ok(Constant { term: copy, code })
    }

    // The term.
    pub(crate) fn term(&self) -> &Term
        ensures { result.now ≡ self.now }
    {
        &self.term
    }

    // Its code.
    #[inline(always)]
    pub(crate) fn part(&self) -> Option<Part<'_>>
        ensures part { MatchOption result (fits self.now ≡ false) (λ part. tree_of part ≡ self.now) }
        ensures coded { is_some result ≡ fits self.now }
    {
        match &self.code {
            Some(code) => Some(Part::of(code.as_slice())),
            None => None,
        }
    }
}
