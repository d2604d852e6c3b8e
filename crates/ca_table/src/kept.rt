//! Objects that were found, kept by their codes.
ghost use Rattle.ca_order.specs.Languages.{IsTermCode};
ghost use Rattle.ca_order.specs.Codes.{IsTermCode-prop};

use crate::codes::key_of;
use ca_model::Code;
use ca_term::Term;
use std::alloc::{AllocError, Global};
use std::marker::Model;

/// An object by its code. Contracts see it as its term.
#[derive(Drop)]
pub(crate) struct Object {
    code: Code,
    ghost is_code: { IsTermCode code.items } by { IsTermCode-prop code.items },
}

impl Model for Object {
    ghost use Rattle.ca_term.specs.Tree.{Tree};
    ghost use Rattle.ca_term.specs.Stored.{tree_stored};

    ghost Value = { Tree };

    ghost coded = { tree_stored };

    ghost view = { λ object. object.is_code.0 };
}

impl Object {
    ghost use Rattle.std.specs.Prelude.{◌≡◌, ◌≤◌, IfOk, true};
    ghost use Rattle.ca_term.specs.Code.{code_of};
    ghost use Rattle.ca_term.specs.Object.{is_object, key_of};
    ghost use Rattle.ca_term.specs.Tree.{IsTerm, Tree};

    // The object of this code.
    #[inline(never)]
    pub(crate) fn of(code: &Code) -> Object
        requires { IsTermCode code.now.items }
        ensures { (t : Tree) → IsTerm t → code.now.items ≡ code_of t → result ≡ t }
    {
        let _length = code.len();
        let mut copy = Code::new();
        let Ok(()) = copy.try_extend_from_slice(code.as_slice()) else {
            unreachable!()
        };
        Object { code: copy }
    }

    // Its key. Only the key's part of the code is read as a term.
    pub(crate) fn key(&self, alloc: Global, keypos: u32) -> Result<Term, AllocError>
        requires keypos { 1 ≤ keypos }
        requires object { is_object keypos self.now ≡ true }
        ensures { IfOk result (λ key. key ≡ key_of keypos self.now) }
    {
        key_of(alloc, &self.code, keypos)
    }
}
