//! Answers as text.
ghost use Rattle.std.specs.Prelude.{◌≡◌, ◌++◌, OnOk, OnErr};
ghost use Rattle.ca_ets.specs.Command.{Results, response_of};
ghost use Rattle.ca_order.specs.CodesView.{terms_of};
ghost use Rattle.ca_term.specs.Tree.{Nil, list_of};
ghost use Rattle.ca_text.specs.Text.{text_of};
ghost use Rattle.ca_text.specs.Written.{BeginsWith};
ghost use Rattle.ca_cmd.specs.Answers.{answer_of};
ghost use Rattle.ca_cmd.specs.Output.{batch_end, text_of_answer, text_of_fault, text_of_response};

use crate::coded::put_first;
use ca_ets::{Fault, Reply};
use ca_order::Codes;
use ca_term::Term;
use ca_text::{print_term, put};
use std::alloc::AllocError;

/// The answer to a command: a reply, or one of the three refusals of a table that has no room, no depth or no numbers left.
#[derive(Drop)]
pub enum Answer {
    Replied(Reply),
    Full,
    Deep,
    Worn,
}

/// Appends the text of an answer. A refusal leaves the bytes as they were.
pub fn show_reply(answer: &Answer, into: &mut Vec<u8>) -> Result<(), AllocError>
    ensures ok { OnOk result (into.new.items ≡ into.old.items ++ text_of_answer (answer_of answer.now)) }
    ensures err { OnErr result (into.new.items ≡ into.old.items) }
{
    let before = into.len();
    let outcome = put_answer(answer, into);
    if outcome.is_err() {
        into.truncate(before);
    }
    outcome
}

pub(crate) fn put_answer(answer: &Answer, into: &mut Vec<u8>) -> Result<(), AllocError>
    ensures ok { OnOk result (into.new.items ≡ into.old.items ++ text_of_answer (answer_of answer.now)) }
    ensures front { BeginsWith into.new.items into.old.items }
{
    match answer {
        Answer::Replied(reply) => put_reply(reply, into),
        Answer::Full => put(b"refused full", into),
        Answer::Deep => put(b"refused deep", into),
        Answer::Worn => put(b"refused worn", into),
    }
}

fn put_reply(reply: &Reply, into: &mut Vec<u8>) -> Result<(), AllocError>
    ensures ok { OnOk result (into.new.items ≡ into.old.items ++ text_of_response (response_of reply.now)) }
    ensures front { BeginsWith into.new.items into.old.items }
{
    match reply {
        Reply::Truth(true) => put(b"true", into),
        Reply::Truth(false) => put(b"false", into),
        Reply::Value(term) => put_term(term, into),
        Reply::List(terms) => put_list(terms.as_slice(), into),
        Reply::Batch(terms, more) => put_batch(terms.as_slice(), *more, into),
        Reply::Coded(list) => put_codes(list.codes(), into),
        Reply::CodedBatch(list, more) => put_coded_batch(list.codes(), *more, into),
        Reply::End => put(b"'$end_of_table'", into),
        Reply::Error(fault) => put_fault(*fault, into),
    }
}

fn put_batch(terms: &[Term], more: bool, into: &mut Vec<u8>) -> Result<(), AllocError>
    ensures ok { OnOk result (into.new.items ≡ into.old.items ++ text_of_response (Results terms.now more)) }
    ensures front { BeginsWith into.new.items into.old.items }
{
    put(b"{", into)?;
    put_list(terms, into)?;
    put_batch_end(more, into)
}

fn put_coded_batch(codes: Codes<'_>, more: bool, into: &mut Vec<u8>) -> Result<(), AllocError>
    ensures ok { OnOk result (into.new.items ≡ into.old.items ++ text_of_response (Results (terms_of codes.entry) more)) }
    ensures front { BeginsWith into.new.items into.old.items }
{
    put(b"{", into)?;
    put_codes(codes, into)?;
    put_batch_end(more, into)
}

fn put_batch_end(more: bool, into: &mut Vec<u8>) -> Result<(), AllocError>
    ensures ok { OnOk result (into.new.items ≡ into.old.items ++ batch_end more) }
    ensures front { BeginsWith into.new.items into.old.items }
{
    match more {
        true => put(b",more}", into),
        false => put(b",'$end_of_table'}", into),
    }
}

// The list of these terms.
#[tactic(auto, using(ca_text::proofs::Fronts::begins_more))]
fn put_list(terms: &[Term], into: &mut Vec<u8>) -> Result<(), AllocError>
    ensures ok { OnOk result (into.new.items ≡ into.old.items ++ text_of (list_of terms.now Nil)) }
    ensures front { BeginsWith into.new.items into.old.items }
{
    let Some((first, others)) = terms.split_first() else {
        return put(b"[]", into);
    };
    put(b"[", into)?;
    put_term(first, into)?;
    for term in others {
        put(b",", into)?;
        put_term(term, into)?;
    }
    put(b"]", into)
}

// The list of the terms of these codes, without a term of each.
#[tactic(auto, using(ca_text::proofs::Fronts::begins_more))]
fn put_codes(codes: Codes<'_>, into: &mut Vec<u8>) -> Result<(), AllocError>
    ensures ok { OnOk result (into.new.items ≡ into.old.items ++ text_of (list_of (terms_of codes.entry) Nil)) }
    ensures front { BeginsWith into.new.items into.old.items }
{
    if codes.is_empty() {
        return put(b"[]", into);
    }
    put(b"[", into)?;
    let mut left = put_first(codes, into)?;
    while !left.is_empty() {
        put(b",", into)?;
        left = put_first(left, into)?;
    }
    put(b"]", into)
}

fn put_fault(fault: Fault, into: &mut Vec<u8>) -> Result<(), AllocError>
    ensures ok { OnOk result (into.new.items ≡ into.old.items ++ text_of_fault fault) }
    ensures front { BeginsWith into.new.items into.old.items }
{
    match fault {
        Fault::BadArg => put(b"error badarg", into),
        Fault::Range => put(b"error range", into),
        Fault::Size => put(b"error size", into),
    }
}

// Appends the text of a term.
pub(crate) fn put_term(term: &Term, into: &mut Vec<u8>) -> Result<(), AllocError>
    ensures ok { OnOk result (into.new.items ≡ into.old.items ++ text_of term.now) }
    ensures front { BeginsWith into.new.items into.old.items }
{
    print_term(term, into)
}
