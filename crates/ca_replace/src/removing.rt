//! Calls that remove a key's object.
ghost use Rattle.std.specs.Prelude.{None};
ghost use Rattle.ca_model.specs.Function.{MayBeAskedFor};
ghost use Rattle.ca_replace.specs.Adapting.{is_put};
ghost use Rattle.ca_replace.specs.Tells.{Removes, RemovesIf};

use crate::adapting::Course;
use crate::attempting::{Attempt, Halt, fetch, remove_there};
use crate::ending::{Read, enter};
use crate::tree::Tree;
use ca_base::Removal;
use ca_model::{Changed, Code};
use ca_node::TreePass;

/// The call that removes a key's object.
#[derive(Clone, Copy)]
pub(crate) struct RemoveCall<'a> {
    pub(crate) key: &'a [u8],
}

impl Attempt for RemoveCall<'_> {
    type Answer = bool;

    type Left = Code;

    type Room = ();

    ghost may = { λ call z. Unit {0} };

    ghost tells = { λ call was old event. Removes call.key.now was old.items event };

    ghost adds = { λ call. None };

    ghost edits = { λ call was. was };

    ghost about = { λ call. call.key.now };

    fn attempt(
        &self,
        tree: &Tree,
        pass: &mut TreePass,
        old: &mut Code,
        _room: &mut (),
        course: &mut Course,
    ) -> Result<bool, Halt> {
        let key = self.key;
        let (cursor, place) = fetch(&tree.space, pass, key, course.again, old);
        let Ok(at) = place else {
            enter(&tree.space, pass, cursor.base, Read::NothingToRemove(key));
            return Ok(false);
        };
        let removal = Removal { at, key };
        match remove_there(tree, pass, cursor, &removal, course) {
            Ok(()) => Ok(true),
            Err(stop) => Err(stop),
        }
    }
}

/// The call that removes a key's object where a function answers true on it.
#[derive(Drop)]
pub(crate) struct RemoveIfCall<'a, F> {
    pub(crate) key: &'a [u8],
    pub(crate) f: &'a F,
}

impl<F: Fn(&[u8]) -> bool> Attempt for RemoveIfCall<'_, F> {
    type Answer = Changed;

    type Left = Code;

    type Room = ();

    ghost may = { λ call z. MayBeAskedFor F.Fn call.f.now z.keypos call.key.now };

    ghost tells = { λ call changed old event. RemovesIf F.Fn call.f.now call.key.now changed old.items event };

    ghost adds = { λ call. None };

    ghost edits = { λ call changed. is_put changed };

    ghost about = { λ call. call.key.now };

    fn attempt(
        &self,
        tree: &Tree,
        pass: &mut TreePass,
        old: &mut Code,
        _room: &mut (),
        course: &mut Course,
    ) -> Result<Changed, Halt> {
        let (key, f) = (self.key, self.f);
        let (cursor, place) = fetch(&tree.space, pass, key, course.again, old);
        let Ok(at) = place else {
            enter(&tree.space, pass, cursor.base, Read::GotNothing(key));
            return Ok(Changed::Absent);
        };
        if !f(old.as_slice()) {
            enter(
                &tree.space,
                pass,
                cursor.base,
                Read::Got(key, old.as_slice()),
            );
            return Ok(Changed::Kept);
        }
        let removal = Removal { at, key };
        match remove_there(tree, pass, cursor, &removal, course) {
            Ok(()) => Ok(Changed::Put),
            Err(stop) => Err(stop),
        }
    }
}
