//! Calls that put an object.
ghost use Rattle.std.specs.Prelude.{◌≡◌, Some, true};
ghost use Rattle.ca_model.specs.Event.{Write, WriteNew};
ghost use Rattle.ca_base.specs.Targets.{IsKeyed, key_in};

use crate::adapting::Course;
use crate::attempting::{Attempt, Halt, find, put_there};
use crate::ending::{Read, enter};
use crate::tree::Tree;
use ca_base::{Insertion, Keyed, Putting};
use ca_node::TreePass;

/// The call that puts an object, in the place of its key's object where there is one.
#[derive(Clone, Copy)]
pub(crate) struct PutCall<'a> {
    pub(crate) keyed: Keyed<'a>,
}

/// The call that puts an object where there is none with its key.
#[derive(Clone, Copy)]
pub(crate) struct PutNewCall<'a> {
    pub(crate) keyed: Keyed<'a>,
}

impl Attempt for PutCall<'_> {
    type Answer = ();

    type Left = ();

    type Room = ();

    ghost may = { λ call z. IsKeyed z.keypos call.keyed };

    ghost tells = { λ call answer left event. event ≡ Write (key_in call.keyed) call.keyed.object.now };

    ghost adds = { λ call. Some (key_in call.keyed) };

    ghost edits = { λ call _. true };

    ghost about = { λ call. key_in call.keyed };

    fn attempt(
        &self,
        tree: &Tree,
        pass: &mut TreePass,
        _left: &mut (),
        _room: &mut (),
        course: &mut Course,
    ) -> Result<(), Halt> {
        let keyed = self.keyed;
        let key = &keyed.object[keyed.key_at..keyed.key_end];
        let (cursor, place) = find(&tree.space, pass, key, course.again);
        let why = Putting::Put;
        let insertion = Insertion { keyed, why, place };
        put_there(tree, pass, cursor, &insertion, course)
    }
}

impl Attempt for PutNewCall<'_> {
    type Answer = bool;

    type Left = ();

    type Room = ();

    ghost may = { λ call z. IsKeyed z.keypos call.keyed };

    ghost tells = { λ call new left event. event ≡ WriteNew (key_in call.keyed) call.keyed.object.now new };

    ghost adds = { λ call. Some (key_in call.keyed) };

    ghost edits = { λ call new. new };

    ghost about = { λ call. key_in call.keyed };

    fn attempt(
        &self,
        tree: &Tree,
        pass: &mut TreePass,
        _left: &mut (),
        _room: &mut (),
        course: &mut Course,
    ) -> Result<bool, Halt> {
        let keyed = self.keyed;
        let key = &keyed.object[keyed.key_at..keyed.key_end];
        let (cursor, place) = find(&tree.space, pass, key, course.again);
        if place.is_ok() {
            let read = Read::NotNew(key, keyed.object);
            enter(&tree.space, pass, cursor.base, read);
            return Ok(false);
        }
        let why = Putting::PutNew;
        let insertion = Insertion { keyed, why, place };
        match put_there(tree, pass, cursor, &insertion, course) {
            Ok(()) => Ok(true),
            Err(stop) => Err(stop),
        }
    }
}
