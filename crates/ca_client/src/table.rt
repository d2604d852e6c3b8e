//! The table of a closed tree.
ghost use Rattle.std.specs.Prelude.{◌≡◌, ◌<◌, List, IfOk, length, slice_index_or};
ghost use Rattle.std.specs.Coded.{codes};
ghost use Rattle.ca_cmd.specs.Sole.{Sole, Sole-prop};
ghost use Rattle.ca_term.specs.Tree.{Tree, Nil};
ghost use Rattle.ca_term.specs.contracts.term.Term as term;
ghost use Rattle.ca_client.specs.Table.{AreObjectsOf};

use ca_close::Objects;
use ca_model::Code;
use ca_order::{DecodeFault, decode};
use ca_term::Term;
use std::alloc::{AllocError, Global};
use std::marker::Model;

/// The table of a closed tree: its objects, in the order of their keys. Contracts see them as terms. They stand as codes in the tree's words, and one of them
/// is made a term where it is asked for.
#[derive(Drop)]
pub struct ClosedTable {
    objects: Objects,
    ghost terms: { Sole (List Tree) (AreObjectsOf objects) } by { Sole-prop (AreObjectsOf objects) (Prim.hlevel (codes, term.the_row.coded)) },
}

impl Model for ClosedTable {
    ghost use Rattle.std.specs.Prelude.{List};
    ghost use Rattle.std.specs.Coded.{codes};
    ghost use Rattle.ca_term.specs.Tree.{Tree};
    ghost use Rattle.ca_term.specs.contracts.term.Term as term;

    ghost Value = { List Tree };

    ghost coded = { Prim.hlevel (codes, term.the_row.coded) };

    ghost view = { λ a. a.terms.0 };
}

impl ClosedTable {
    // The table of the terms whose codes these objects are. It takes no memory.
    pub(crate) fn of(objects: Objects) -> ClosedTable
        requires { (table : List Tree) × AreObjectsOf objects table }
        ensures { (table : List Tree) → AreObjectsOf objects table → result ≡ table }
    {
        ClosedTable { objects }
    }

    /// How many objects there are.
    pub fn len(&self) -> usize
        ensures { result ≡ length self.now }
    {
        self.objects.len()
    }

    /// The object whose key is greater than those of `at` others, made for the caller. `Err` where memory wasn't found.
    pub fn object(&self, alloc: Global, at: usize) -> Result<Term, AllocError>
        requires { at < length self.now }
        ensures { IfOk result (λ object. object ≡ slice_index_or self.now at Nil) }
    {
        let mut code = Code::new();
        self.objects.copy(at, &mut code);
        let object = match decode(alloc, code.as_slice()) {
            Ok(object) => object,
            Err(DecodeFault::NoMemory) => return Err(AllocError),
            Err(DecodeFault::NotACode { at: _ }) => unreachable!(),
        };
        let _kind = object.kind();
        Ok(object)
    }
}
