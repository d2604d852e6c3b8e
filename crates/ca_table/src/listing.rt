//! The objects of a plain store as terms.
ghost use Rattle.std.specs.Prelude.{◌≡◌, IfOk};
ghost use Rattle.ca_term.specs.Code.{code_of};
ghost use Rattle.ca_term.specs.Tree.{IsTerm};
ghost use Rattle.ca_order.specs.Languages.{IsTermCode};
ghost use Rattle.ca_explain.specs.Stands.{Stands};

use ca_model::Plain;
use ca_order::{DecodeFault, decode};
use ca_term::{Term, Terms};
use std::alloc::{AllocError, Global};

/// The table that a plain store's map stands for: its objects, in the order of their keys. `Err` where memory wasn't found.
#[tactic(auto, using(crate::proofs::Listed::listed_none, crate::proofs::Listed::listed_all))]
pub fn objects(alloc: Global, store: &Plain) -> Result<Terms, AllocError>
    ensures { IfOk result (λ objects. Stands store.now.keypos store.now.map objects.items) }
{
    let mut objects = Terms::new(alloc);
    for at in 0..store.len() {
        let object = term_of(alloc, store.object(at))?;
        let Ok(()) = objects.push(object) else {
            return Err(AllocError);
        };
    }
    Ok(objects)
}

/// The term that these bytes are the code of. `Err` where memory wasn't found.
pub fn term_of(alloc: Global, code: &[u8]) -> Result<Term, AllocError>
    requires { IsTermCode code.now }
    ensures code { IfOk result (λ term. code.now ≡ code_of term) }
    ensures bounded { IfOk result (λ term. IsTerm term) }
{
    let term = match decode(alloc, code) {
        Ok(term) => term,
        Err(DecodeFault::NoMemory) => return Err(AllocError),
        Err(DecodeFault::NotACode { at: _ }) => unreachable!(),
    };
    let _kind = term.kind();
    Ok(term)
}
