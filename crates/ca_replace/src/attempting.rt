//! Attempts of a call that edits.
ghost use Rattle.std.specs.Prelude.{◌≡◌, ◌≢◌, ◌<◌, ◌≤◌, ◌↔◌, ℕ, Bool, Err, IfErr, List, None, Ok, Some, false, length, map, true, IsTrue, ◌+◌};
ghost use Rattle.std.specs.declared.option.Option.{Option};
ghost use Rattle.ca_model.specs.Places.{IsPlace};
ghost use Rattle.ca_model.specs.Event.{Event};
ghost use Rattle.ca_node.specs.Row.{pair};
ghost use Rattle.ca_replace.specs.declared.attempting.Halt.TheVariants.{Deep as IsDeep};
ghost use Rattle.ca_replace.specs.Causes.{IsFullSince};
ghost use Rattle.ca_replace.specs.Crowding.{Crowds, HasFewAlone};
ghost use Rattle.ca_replace.specs.Cutting.{IsFullFor};
ghost use Rattle.ca_replace.specs.Attempting.{BeginsAt, IsLooking, HasFetched, HasTriedSince, StaysFor, split_to};
ghost use Rattle.ca_node.specs.Walking.{IsWalked};
ghost use Rattle.ca_node.specs.declared.cursor.Spot.TheVariants.{At as IsAt};
ghost use Rattle.ca_base.specs.Putting.{IsRoom, IsFor};
ghost use Rattle.ca_base.specs.Targets.{IsKeyed, key_in};
ghost use Rattle.ca_rows.specs.declared.sizes.Sizes.{Sizes};
ghost use Rattle.ca_replace.specs.Looking.{HasFound, MayEdit, MayExchange};
ghost use Rattle.ca_replace.specs.Turning.{TakesTurn, course_after, course_helped, helped_to, paid, HasPut, HasRemoved, LacksRoom, HasEdited};
ghost use Rattle.ca_rows.specs.Passes.{IsReading, KeepsList, sizes, known};
ghost use Rattle.ca_node.specs.TreePasses.{tree_of};
ghost use Rattle.ca_base.specs.Readiness.{StaysReady, shown_last};
ghost use Rattle.ca_replace.specs.Between.{MayBegin};

use crate::adapting::{Course, NewBase, next_statistic, note_stop, settle};
use crate::giving::{add, spent_in_all};
use crate::looking::copy_at;
use crate::tree::Tree;
use ca_adapt::{first_attempt, word_of};
use ca_base::{Insertion, Removal, Stop, Target, count, put_at, remove_at, search, split_at};
use ca_model::{Code, Spent};
use ca_node::{Cursor, Spot, TreePass, TreeSpace, walk, walk_from};
use ca_range::{Helped, Way, clear};

/// Why an attempt came to nothing.
#[derive(Clone, Copy)]
pub(crate) enum Halt {
    /// What it tried came to nothing.
    Stopped(Stop),
    /// The base that must take a new key has as many as it may, and stands at the last level.
    Deep,
    /// That base was split, and so there may be room now.
    Split,
    /// A range of another pass has the base, and was helped; or an attempt to join had it, and was given up or carried out.
    Helped,
}

/// A call that may edit, and what one attempt of it does.
pub(crate) trait Attempt {
    /// What the call answers.
    type Answer: Copy;

    /// What it leaves with its caller beside the answer.
    type Left;

    /// Where its attempts write what they need for themselves.
    type Room;

    /// Whether the call may be made on a tree of these sizes.
    ghost may: { Self → Sizes → Type 0 };

    /// Whether the call is this event, given its answer and what it left.
    ghost tells: { Self → Self.Answer → Self.Left → Event → Type 0 };

    /// The key that the call may add, if any, for which a base may have no room.
    ghost adds: { Self → Option (List ℕ) };

    /// Whether the call edits the map, given its answer.
    ghost edits: { Self → Self.Answer → Bool };

    /// The key that the call is about.
    ghost about: { Self → List ℕ };

    /// One attempt, of a pass that is pinned, holds no row, and answered no call since it pinned. It begins at the root, or with the link that the course
    /// names; where it comes to nothing, another one may begin so while the pass is pinned.
    fn attempt(
        &self,
        tree: &Tree,
        pass: &mut TreePass,
        left: &mut Self::Left,
        room: &mut Self::Room,
        course: &mut Course,
    ) -> Result<Self::Answer, Halt>
        requires may { may self.now (sizes tree.now.space) }
        requires begins { MayBegin tree.now.space (about self.now) course.old.again false pass.old }
        ensures frame { StaysReady tree.now.space pass.old pass.new }
        ensures tried { HasTriedSince (λ answer. tells self.now answer left.new) (sizes tree.now.space) result (tree_of pass.old) (tree_of pass.new) }
        ensures stays { StaysFor tree.now.space (about self.now) result pass.old pass.new course.new }
        ensures deep { result ≡ Err IsDeep → IsFullSince (sizes tree.now.space) (adds self.now) (tree_of pass.new) }
        ensures crowds { Crowds tree.now.space result pass.old pass.new }
        ensures few_rows { IfErr result (λ _. HasFewAlone (sizes tree.now.space) (tree_of pass.old)) }
        ensures turn { TakesTurn (edits self.now) (adds self.now) tree.now course.old course.new ((sizes tree.now.space).levels + 1) result pass.old pass.new };
}

/// The base that has the key, and the key's place among its objects. It is shown to the pass, which has seen the whole history then. The walk begins with
/// the link of this cursor, if there is one, to which the key is led, and else at the root.
pub(crate) fn find(
    space: &TreeSpace,
    pass: &mut TreePass,
    key: &[u8],
    again: Option<Cursor>,
) -> (Cursor, Result<u32, u32>)
    requires leaf { (sizes space.now).leaf ≤ 120 }
    requires begins { MayBegin space.now key.now again false pass.old }
    ensures found { HasFound space.now key.now result.0 result.1 pass.old pass.new }
{
    let cursor = walk_again(space, pass, key, again);
    let place = search(space, pass, cursor.base, key);
    (cursor, place)
}

// Walks to the base that has the key, from the link of this cursor, if there is one, or from the root.
fn walk_again(space: &TreeSpace, pass: &mut TreePass, key: &[u8], again: Option<Cursor>) -> Cursor
    requires reading { IsReading space.now pass.old }
    requires begins { BeginsAt (sizes space.now) key.now (tree_of pass.old) again }
    ensures frame { KeepsList pass.old pass.new }
    ensures walked { IsWalked (sizes space.now) (IsAt key.entry) (known pass.old) result (known pass.new) }
{
    let spot = Spot::At(key);
    match again {
        Some(from) => walk_from(space, pass, from, spot),
        None => walk(space, pass, spot),
    }
}

/// The base that has the key, and the key's place among its objects; then `old` is the key's object, or it is empty where there is none.
pub(crate) fn fetch(
    space: &TreeSpace,
    pass: &mut TreePass,
    key: &[u8],
    again: Option<Cursor>,
    old: &mut Code,
) -> (Cursor, Result<u32, u32>)
    requires leaf { (sizes space.now).leaf ≤ 120 }
    requires begins { MayBegin space.now key.now again false pass.old }
    ensures found { HasFound space.now key.now result.0 result.1 pass.old pass.new }
    ensures fetched { HasFetched (sizes space.now) (tree_of pass.new) key.now result.1 old.new.items }
{
    let (cursor, place) = find(space, pass, key, again);
    match place {
        Ok(at) => copy_at(space, pass, cursor.base, at, old),
        Err(_between) => old.clear(),
    }
    (cursor, place)
}

/// Puts an object at its key's place in the base that was shown last, where there is room; else it splits the base, if that isn't at the last level.
/// Before that it looks at the base's mark: where a range of another pass has the base, that range is helped instead, and an attempt to join is given up
/// or carried out.
pub(crate) fn put_there(
    tree: &Tree,
    pass: &mut TreePass,
    cursor: Cursor,
    insertion: &Insertion<'_>,
    course: &mut Course,
) -> Result<(), Halt>
    requires may { MayEdit tree.now.space (key_in insertion.now.keyed) cursor pass.old }
    requires keyed { IsKeyed (sizes tree.now.space).keypos insertion.now.keyed }
    requires place { IsPlace (map pair (shown_last pass.old).objects) (key_in insertion.now.keyed) insertion.now.place }
    requires call { IsFor insertion.now.why insertion.now.place }
    ensures edited { HasPut tree.now.space tree.now.tuning insertion.now course.new.marked course.old course.new result pass.old pass.new }
    ensures no_room { LacksRoom (sizes tree.now.space) (key_in insertion.now.keyed) insertion.now.place result (tree_of pass.new) }
{
    match clear(&tree.space, pass, cursor, &tree.tuning, turns_left(course)) {
        Way::Free(marked) => {
            let done = put_settled(tree, pass, cursor, insertion, course);
            course.marked = marked;
            done
        }
        Way::Helped(helped, spent) => Err(after_help(helped, spent, course)),
    }
}

// The same where it is known that neither a range has the base nor a join.
fn put_settled(
    tree: &Tree,
    pass: &mut TreePass,
    cursor: Cursor,
    insertion: &Insertion<'_>,
    course: &mut Course,
) -> Result<(), Halt>
    requires may { MayExchange tree.now.space (key_in insertion.now.keyed) cursor pass.old }
    requires keyed { IsKeyed (sizes tree.now.space).keypos insertion.now.keyed }
    requires place { IsPlace (map pair (shown_last pass.old).objects) (key_in insertion.now.keyed) insertion.now.place }
    requires call { IsFor insertion.now.why insertion.now.place }
    ensures edited { HasPut tree.now.space tree.now.tuning insertion.now false course.old course.new result pass.old pass.new }
    ensures no_room { LacksRoom (sizes tree.now.space) (key_in insertion.now.keyed) insertion.now.place result (tree_of pass.new) }
{
    let space = &tree.space;
    let many = count(space, pass, cursor.base);
    if !has_room(many, insertion.place, tree.tuning.leaf) {
        return Err(make_room(tree, pass, cursor, many, course));
    }
    let lost = course.adapting.lost;
    let statistic = next_statistic(tree, pass, cursor.base, lost);
    let target = Target {
        cursor,
        many,
        statistic: word_of(statistic),
    };
    let mut row = 0;
    course.again = Some(cursor);
    let spent = &mut course.spent;
    let tried = put_at(space, pass, &target, insertion, &mut row, spent);
    let keyed = insertion.keyed;
    let key = &keyed.object[keyed.key_at..keyed.key_end];
    settle(tree, pass, &NewBase { key, row }, statistic, tried, course)
}

// How many turns a call may spend yet; one at least.
fn turns_left(course: &Course) -> u32
    ensures { 1 ≤ result }
{
    course
        .budget
        .saturating_sub(spent_in_all(&course.spent))
        .max(1)
}

// What an attempt comes to that helped a range, by what became of that, and what it hands on.
fn after_help(helped: Helped, spent: Spent, course: &mut Course) -> Halt
    ensures halt { result ≡ helped_to helped }
    ensures course { course.new ≡ course_helped helped spent course.old }
{
    course.spent = pay(&course.spent, &spent);
    course.again = None;
    course.marked = true;
    match helped {
        Helped::Finished | Helped::Busy(_) => Halt::Helped,
        Helped::Lost(exchange) => {
            note_stop(&mut course.adapting, Stop::Lost(exchange));
            Halt::Helped
        }
        Helped::NoRow => Halt::Stopped(Stop::Empty),
        Helped::Worn(_) => Halt::Stopped(Stop::Worn),
    }
}

// What was spent in all.
fn pay(spent: &Spent, more: &Spent) -> Spent
    ensures { result ≡ paid spent.now more.now }
{
    Spent {
        lost: add(spent.lost, more.lost),
        helped: add(spent.helped, more.helped),
        passed: add(spent.passed, more.passed),
    }
}

// What an attempt comes to that met a full base: it splits the base, if that isn't at the last level.
fn make_room(
    tree: &Tree,
    pass: &mut TreePass,
    cursor: Cursor,
    many: u32,
    course: &mut Course,
) -> Halt
    requires may { (key : List ℕ) × MayExchange tree.now.space key cursor pass.old }
    requires many { (many ≡ length (shown_last pass.old).objects) × (tree.now.tuning.leaf ≤ many) }
    ensures edited { (key : List ℕ) → IsLooking (sizes tree.now.space) (tree_of pass.old) key cursor
        → IsFullFor (sizes tree.now.space) (Some key) (shown_last pass.old)
        → HasEdited tree.now.space tree.now.tuning (λ _. ⊥) key (Some key) false course.old course.new (Err result) pass.old pass.new }
    ensures deep { result ≡ IsDeep → (sizes tree.now.space).levels ≤ (shown_last pass.old).place.level }
    ensures still { result ≡ IsDeep → tree_of pass.new ≡ tree_of pass.old }
{
    course.again = Some(cursor);
    if cursor.level >= tree.tuning.levels {
        return Halt::Deep;
    }
    let space = &tree.space;
    let spent = &mut course.spent;
    let split = split_at(space, pass, cursor, many, first_attempt(space), spent);
    note_split(course, &split);
    halt_of(split)
}

// Notes what became of the split of a full base: a turn where it was split, and that an exchange of a link was lost where that was.
fn note_split(course: &mut Course, split: &Result<(), Stop>)
    ensures { course.new ≡ course_after split.now course.old }
{
    match split {
        Ok(()) => course.spent.passed = course.spent.passed.saturating_add(1),
        Err(why) => note_stop(&mut course.adapting, *why),
    }
}

// What an attempt comes to that tried to split a full base, by what became of it.
fn halt_of(split: Result<(), Stop>) -> Halt
    ensures { result ≡ split_to split }
{
    match split {
        Ok(()) => Halt::Split,
        Err(why) => Halt::Stopped(why),
    }
}

/// Removes the object at its key's place in the base that was shown last. Where a range of another pass has the base, that range is helped instead, and an
/// attempt to join is given up or carried out.
pub(crate) fn remove_there(
    tree: &Tree,
    pass: &mut TreePass,
    cursor: Cursor,
    removal: &Removal<'_>,
    course: &mut Course,
) -> Result<(), Halt>
    requires may { MayEdit tree.now.space removal.now.key.now cursor pass.old }
    requires place { IsPlace (map pair (shown_last pass.old).objects) removal.now.key.now (Ok removal.now.at) }
    ensures edited { HasRemoved tree.now.space tree.now.tuning removal.now course.new.marked course.old course.new result pass.old pass.new }
    ensures deep { result ≢ Err IsDeep }
{
    match clear(&tree.space, pass, cursor, &tree.tuning, turns_left(course)) {
        Way::Free(marked) => {
            let done = remove_settled(tree, pass, cursor, removal, course);
            course.marked = marked;
            done
        }
        Way::Helped(helped, spent) => Err(after_help(helped, spent, course)),
    }
}

// The same where it is known that no range has the base.
fn remove_settled(
    tree: &Tree,
    pass: &mut TreePass,
    cursor: Cursor,
    removal: &Removal<'_>,
    course: &mut Course,
) -> Result<(), Halt>
    requires may { MayExchange tree.now.space removal.now.key.now cursor pass.old }
    requires place { IsPlace (map pair (shown_last pass.old).objects) removal.now.key.now (Ok removal.now.at) }
    ensures edited { HasRemoved tree.now.space tree.now.tuning removal.now false course.old course.new result pass.old pass.new }
    ensures deep { result ≢ Err IsDeep }
{
    let space = &tree.space;
    let many = count(space, pass, cursor.base);
    let lost = course.adapting.lost;
    let statistic = next_statistic(tree, pass, cursor.base, lost);
    let target = Target {
        cursor,
        many,
        statistic: word_of(statistic),
    };
    let mut row = 0;
    course.again = Some(cursor);
    let spent = &mut course.spent;
    let tried = remove_at(space, pass, &target, removal, &mut row, spent);
    let key = removal.key;
    settle(tree, pass, &NewBase { key, row }, statistic, tried, course)
}

// Whether there is room for one item more beside so many, where it isn't put in the place of another one.
fn has_room(many: u32, place: Result<u32, u32>, leaf: u8) -> bool
    ensures { IsTrue result ↔ IsRoom place many leaf }
{
    match place {
        Ok(_at) => true,
        Err(_between) => many < leaf as u32,
    }
}
