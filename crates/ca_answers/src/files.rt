//! Calls of command lines and command files.
ghost use Rattle.std.specs.Prelude.{◌≤◌};

use crate::say::{say, say_lines, say_term, say_value};
use crate::terms::terms_in;
use bstr::ByteSlice;
use ca_cmd::{
    Answer, Lines, generate, read_file, show_answer, show_client, show_reply, show_table,
};
use ca_ets::{Cmd, Fault, Reply};
use ca_term::{Term, try_copy};
use ca_words::{Request, command_line_of};
use std::alloc::{AllocError, Global};

// The most bytes of a command file.
const MOST_FILE_BYTES: usize = 16_777_216;

fn words_of(alloc: Global, text: &[u8]) -> Result<Vec<String>, AllocError> {
    let mut words = Vec::new(alloc);
    if let Ok(text) = str::from_utf8(text)
        && !text.is_empty()
    {
        for word in text.split(' ') {
            words.push(word.to_string(alloc)?)?;
        }
    }
    Ok(words)
}

/// What the words of a command line ask for. Between two words is one blank.
pub(crate) fn say_request(alloc: Global, text: &[u8], into: &mut Vec<u8>) {
    let Ok(words) = words_of(alloc, text) else {
        return say(b"no memory", into);
    };
    let line = match command_line_of(alloc, words.as_slice()) {
        Ok(Some(line)) => line,
        Ok(None) => return say(b"usage", into),
        Err(_) => return say(b"no memory", into),
    };
    match line.request {
        Request::Files { keypos, names } => {
            say(b"files ", into);
            say_value(alloc, &keypos, into);
            for name in names {
                say(b" ", into);
                say(name.as_str().as_bytes(), into);
            }
        }
        Request::Generated {
            seed,
            clients,
            lines,
        } => {
            say(b"generated ", into);
            say_value(alloc, &(seed, clients, lines), into);
        }
    }
}

fn say_word(word: &[u8], arguments: &[&Term], into: &mut Vec<u8>) {
    say(word, into);
    for argument in arguments {
        say(b" ", into);
        say_term(argument, into);
    }
}

fn say_command(cmd: &Cmd, into: &mut Vec<u8>) {
    match cmd {
        Cmd::Insert(object) => say_word(b"insert", &[object], into),
        Cmd::InsertNew(object) => say_word(b"insert_new", &[object], into),
        Cmd::Lookup(key) => say_word(b"lookup", &[key], into),
        Cmd::Member(key) => say_word(b"member", &[key], into),
        Cmd::Delete(key) => say_word(b"delete", &[key], into),
        Cmd::Take(key) => say_word(b"take", &[key], into),
        Cmd::UpdateCounter(key, op) => say_word(b"update_counter", &[key, op], into),
        Cmd::UpdateElement(key, op) => say_word(b"update_element", &[key, op], into),
        Cmd::First => say(b"first", into),
        Cmd::Last => say(b"last", into),
        Cmd::Next(key) => say_word(b"next", &[key], into),
        Cmd::Prev(key) => say_word(b"prev", &[key], into),
        Cmd::Select(spec) => say_word(b"select", &[spec], into),
        Cmd::SelectRange(lo, hi, spec) => say_word(b"select_range", &[lo, hi, spec], into),
        Cmd::Batch(spec, limit) => say_word(b"batch", &[spec, limit], into),
        Cmd::More => say(b"more", into),
    }
}

// The commands of the lines from number `from` on, each with its line's number and a dot.
fn say_commands(alloc: Global, from: u32, lines: &Lines, into: &mut Vec<u8>) {
    let Ok(lines) = lines.to_vec(alloc) else {
        return say(b"no memory", into);
    };
    say(b"commands:", into);
    for line in lines.as_slice() {
        if from <= line.number {
            say(b" ", into);
            say_value(alloc, &line.number, into);
            say(b" ", into);
            say_command(&line.cmd, into);
            say(b".", into);
        }
    }
}

/// The commands of a file.
pub(crate) fn say_file(alloc: Global, bytes: &[u8], into: &mut Vec<u8>) {
    if bytes.len() > MOST_FILE_BYTES {
        return say(b"too long", into);
    }
    match read_file(alloc, bytes) {
        Ok(lines) => say_commands(alloc, 1, &lines, into),
        Err(fault) => say_value(alloc, &fault, into),
    }
}

/// The lines from number `from` on of those that a client is given.
pub(crate) fn say_generated(
    alloc: Global,
    seed: u32,
    client: u32,
    lines: u32,
    from: u32,
    into: &mut Vec<u8>,
)
    requires { 1 ≤ client }
{
    match generate(alloc, seed, client, lines) {
        Ok(lines) => say_commands(alloc, from, &lines, into),
        Err(_) => say(b"no memory", into),
    }
}

// The answer of a word and terms.
fn answer_in(alloc: Global, text: &[u8]) -> Option<Answer> {
    let (word, rest) = text.split_once_str(b" ").unwrap_or((text, &[]));
    let terms = terms_in(alloc, rest)?;
    Some(match str::from_utf8(word).unwrap_or("") {
        "true" => Answer::Replied(Reply::Truth(true)),
        "false" => Answer::Replied(Reply::Truth(false)),
        "value" => Answer::Replied(Reply::Value(try_copy(alloc, terms.as_slice().first()?).ok()?)),
        "list" => Answer::Replied(Reply::List(terms)),
        "more" => Answer::Replied(Reply::Batch(terms, true)),
        "last" => Answer::Replied(Reply::Batch(terms, false)),
        "end" => Answer::Replied(Reply::End),
        "badarg" => Answer::Replied(Reply::Error(Fault::BadArg)),
        "range" => Answer::Replied(Reply::Error(Fault::Range)),
        "size" => Answer::Replied(Reply::Error(Fault::Size)),
        "full" => Answer::Full,
        "deep" => Answer::Deep,
        "worn" => Answer::Worn,
        _ => return None,
    })
}

/// The text of an answer, and its line in the output.
pub(crate) fn say_answer(alloc: Global, text: &[u8], into: &mut Vec<u8>) {
    let Some(answer) = answer_in(alloc, text) else {
        return say(b"no answer", into);
    };
    let _ = show_reply(&answer, into);
    let mut line = Vec::new(alloc);
    let _ = show_answer(12, &answer, &mut line);
    say(b" and in line 12: ", into);
    say_lines(line.as_slice(), into);
}

/// The line before a client's answers.
pub(crate) fn say_client(alloc: Global, client: u32, into: &mut Vec<u8>) {
    let mut line = Vec::new(alloc);
    let _ = show_client(u64::from(client), &mut line);
    say_lines(line.as_slice(), into);
}

/// The lines of a table of these objects.
pub(crate) fn say_table(alloc: Global, objects: &[Term], into: &mut Vec<u8>) {
    let mut lines = Vec::new(alloc);
    let _ = show_table(objects, &mut lines);
    say_lines(lines.as_slice(), into);
}
