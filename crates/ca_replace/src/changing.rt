//! The call that changes a key's object.
ghost use Rattle.std.specs.Prelude.{None};
ghost use Rattle.ca_model.specs.Function.{KeepsKey};
ghost use Rattle.ca_replace.specs.Adapting.{is_put};
ghost use Rattle.ca_replace.specs.Tells.{Alters};

use crate::adapting::Course;
use crate::attempting::{Attempt, Halt, fetch, put_there};
use crate::ending::{Read, enter};
use crate::tree::Tree;
use ca_base::{Insertion, Keyed, Putting};
use ca_model::{Changed, Code};
use ca_node::TreePass;

/// The call that hands a key's object to a function, and puts what that wrote in its place where it answered true.
#[derive(Drop)]
pub(crate) struct ChangeCall<'a, F> {
    pub(crate) key: &'a [u8],
    pub(crate) f: &'a F,
}

impl<F: Fn(&[u8], &mut Code, &mut usize) -> bool> Attempt for ChangeCall<'_, F> {
    type Answer = Changed;

    type Left = Code;

    type Room = Code;

    ghost may = { λ call z. KeepsKey F.Fn call.f.now z.keypos call.key.now };

    ghost tells = { λ call changed old event. Alters F.Fn call.f.now call.key.now changed old.items event };

    ghost adds = { λ call. None };

    ghost edits = { λ call changed. is_put changed };

    ghost about = { λ call. call.key.now };

    fn attempt(
        &self,
        tree: &Tree,
        pass: &mut TreePass,
        old: &mut Code,
        new: &mut Code,
        course: &mut Course,
    ) -> Result<Changed, Halt> {
        let (key, f) = (self.key, self.f);
        let (cursor, place) = fetch(&tree.space, pass, key, course.again, old);
        let Ok(at) = place else {
            enter(&tree.space, pass, cursor.base, Read::NothingToChange(key));
            return Ok(Changed::Absent);
        };
        new.clear();
        let mut start = 0;
        if !f(old.as_slice(), &mut *new, &mut start) {
            let read = Read::Unchanged(key, old.as_slice());
            enter(&tree.space, pass, cursor.base, read);
            return Ok(Changed::Kept);
        }
        let end = start + key.len();
        let keyed = Keyed {
            object: new.as_slice(),
            key_at: start,
            key_end: end,
        };
        let insertion = Insertion {
            keyed,
            why: Putting::Change,
            place: Ok(at),
        };
        match put_there(tree, pass, cursor, &insertion, course) {
            Ok(()) => Ok(Changed::Put),
            Err(stop) => Err(stop),
        }
    }
}
