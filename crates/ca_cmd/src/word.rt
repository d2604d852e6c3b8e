//! Command words.
ghost use Rattle.std.specs.Prelude.{◌≡◌, ◌≤◌, ◌<◌, [], ◌∷◌, ◌++◌, drop, length};
ghost use Rattle.ca_text.specs.Grammar.{is_blank};
ghost use Rattle.ca_cmd.specs.Finds.{Finds};
ghost use Rattle.ca_cmd.specs.Word.{IsOfForm, at_place, command_with, count_of, form_of, word_in, word_length, word_of, words};

use crate::argument::{arguments, end};
use crate::fault::LineFault;
use crate::line::MOST_LINE_BYTES;
use ca_ets::Cmd;
use ca_term::Term;
use std::alloc::Global;

// The words of the commands.
#[derive(Clone, Copy)]
pub(crate) enum Word {
    Insert,
    InsertNew,
    Lookup,
    Member,
    Delete,
    Take,
    UpdateCounter,
    UpdateElement,
    First,
    Last,
    Next,
    Prev,
    Select,
    SelectRange,
    Batch,
    More,
}

impl Word {
    // The word that is spelled so. A pattern `b".."` would tell a proof its bytes one by one; `==` tells it the whole text.
    //
    // Four words are tried at a time: what a comparison tells a proof is read again at each one behind it.
    pub(crate) fn of(text: &[u8]) -> Option<Word>
        ensures { result ≡ word_of text.now }
    {
        match text {
            _ if text == b"insert".as_slice() => Some(Word::Insert),
            _ if text == b"insert_new".as_slice() => Some(Word::InsertNew),
            _ if text == b"lookup".as_slice() => Some(Word::Lookup),
            _ if text == b"member".as_slice() => Some(Word::Member),
            _ => Word::of_change(text),
        }
    }

    // The word of a command that changes what is there, or of those behind it.
    fn of_change(text: &[u8]) -> Option<Word>
        ensures { result ≡ word_in (drop 4 words) text.now }
    {
        match text {
            _ if text == b"delete".as_slice() => Some(Word::Delete),
            _ if text == b"take".as_slice() => Some(Word::Take),
            _ if text == b"update_counter".as_slice() => Some(Word::UpdateCounter),
            _ if text == b"update_element".as_slice() => Some(Word::UpdateElement),
            _ => Word::of_walk(text),
        }
    }

    // The word of a command that walks by key, or of those behind it.
    fn of_walk(text: &[u8]) -> Option<Word>
        ensures { result ≡ word_in (drop 8 words) text.now }
    {
        match text {
            _ if text == b"first".as_slice() => Some(Word::First),
            _ if text == b"last".as_slice() => Some(Word::Last),
            _ if text == b"next".as_slice() => Some(Word::Next),
            _ if text == b"prev".as_slice() => Some(Word::Prev),
            _ => Word::of_selection(text),
        }
    }

    // The word of a command that selects objects.
    fn of_selection(text: &[u8]) -> Option<Word>
        ensures { result ≡ word_in (drop 12 words) text.now }
    {
        match text {
            _ if text == b"select".as_slice() => Some(Word::Select),
            _ if text == b"select_range".as_slice() => Some(Word::SelectRange),
            _ if text == b"batch".as_slice() => Some(Word::Batch),
            _ if text == b"more".as_slice() => Some(Word::More),
            _ => None,
        }
    }

    // How many arguments the command of this word has.
    fn count(self) -> usize
        ensures { result ≡ count_of (form_of self) }
    {
        match self {
            Word::First | Word::Last | Word::More => 0,
            Word::Insert
            | Word::InsertNew
            | Word::Lookup
            | Word::Member
            | Word::Delete
            | Word::Take
            | Word::Next
            | Word::Prev
            | Word::Select => 1,
            Word::UpdateCounter | Word::UpdateElement | Word::Batch => 2,
            Word::SelectRange => 3,
        }
    }

    // The command of this word with these arguments.
    fn command(self, arguments: Vec<Term>) -> Cmd
        requires { length arguments.items ≡ count_of (form_of self) }
        ensures { result ≡ command_with (form_of self) arguments.items }
    {
        match self {
            Word::Insert => Cmd::Insert(only(arguments)),
            Word::InsertNew => Cmd::InsertNew(only(arguments)),
            Word::Lookup => Cmd::Lookup(only(arguments)),
            Word::Member => Cmd::Member(only(arguments)),
            Word::Delete => Cmd::Delete(only(arguments)),
            Word::Take => Cmd::Take(only(arguments)),
            Word::UpdateCounter => {
                let (key, op) = both(arguments);
                Cmd::UpdateCounter(key, op)
            }
            Word::UpdateElement => {
                let (key, op) = both(arguments);
                Cmd::UpdateElement(key, op)
            }
            Word::First => Cmd::First,
            Word::Last => Cmd::Last,
            Word::Next => Cmd::Next(only(arguments)),
            Word::Prev => Cmd::Prev(only(arguments)),
            Word::Select => Cmd::Select(only(arguments)),
            Word::SelectRange => {
                let (lo, hi, spec) = all_three(arguments);
                Cmd::SelectRange(lo, hi, spec)
            }
            Word::Batch => {
                let (spec, limit) = both(arguments);
                Cmd::Batch(spec, limit)
            }
            Word::More => Cmd::More,
        }
    }

    // The command of this word, where these bytes are all that stands behind it in a line of this size.
    pub(crate) fn read(self, alloc: Global, size: usize, bytes: &[u8]) -> Result<Cmd, LineFault>
        requires short { size ≤ MOST_LINE_BYTES }
        requires ends_it { length bytes.now ≤ size }
        ensures { Finds (λ cmd. cmd) (IsOfForm size (form_of self) bytes.now) result }
    {
        let (arguments, rest) = arguments(alloc, size, self.count(), bytes)?;
        end(size, rest)?;
        Ok(self.command(arguments))
    }
}

// Takes the last of these terms.
fn take_last(terms: &mut Vec<Term>) -> Term
    requires { 0 < length terms.old.items }
    ensures { terms.old.items ≡ terms.new.items ++ result ∷ [] }
{
    let Some(term) = terms.pop() else {
        unreachable!()
    };
    term
}

// The only one of these terms.
#[tactic(auto, using(crate::proofs::Arguments::last_argument))]
fn only(mut terms: Vec<Term>) -> Term
    requires { length terms.items ≡ 1 }
    ensures { result ≡ at_place terms.items 0 }
{
    take_last(&mut terms)
}

// Both of these terms.
#[tactic(auto, using(crate::proofs::Arguments::last_argument, crate::proofs::Arguments::front_argument))]
fn both(mut terms: Vec<Term>) -> (Term, Term)
    requires { length terms.items ≡ 2 }
    ensures first { result.0 ≡ at_place terms.items 0 }
    ensures second { result.1 ≡ at_place terms.items 1 }
{
    let second = take_last(&mut terms);
    (only(terms), second)
}

// All three of these terms.
#[tactic(auto, using(crate::proofs::Arguments::last_argument, crate::proofs::Arguments::front_argument))]
fn all_three(mut terms: Vec<Term>) -> (Term, Term, Term)
    requires { length terms.items ≡ 3 }
    ensures first { result.0 ≡ at_place terms.items 0 }
    ensures second { result.1 ≡ at_place terms.items 1 }
    ensures third { result.2 ≡ at_place terms.items 2 }
{
    let third = take_last(&mut terms);
    let (first, second) = both(terms);
    (first, second, third)
}

// How many bytes stand before the first blank.
#[tactic(auto, unfolding(crate::specs::Word::word_length))]
pub(crate) fn word_length(text: &[u8]) -> usize
    ensures value { result ≡ word_length text.now }
    ensures within { result ≤ length text.now }
{
    let mut length = 0;
    let mut rest = text;
    while let [first, after @ ..] = rest {
        if matches!(*first, b' ' | b'\t') {
            break;
        }
        length += 1;
        rest = after;
    }
    length
}
