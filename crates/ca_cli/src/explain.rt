//! What a person is told on standard error where a call ended early. Contracts say nothing of it, and where anything fails while it
//! is made, less is said. A file is read once more for it, and may have changed meanwhile.
ghost use Rattle.std.specs.Prelude.{◌≤◌, length};

use crate::files::MOST_BYTES;
use crate::status::Status;
use ca_cmd::{FileFault, LineWhy, read_file};
use ca_outside::{DirShelf, Shelf};
use ca_words::{Request, command_line_of, fault_in};
use std::alloc::{AllocError, Global};
use std::io::Read;
use std::{env, fs, io};

// How many characters of a bad line are shown before the place where it is bad, and from there on.
const MOST_BEFORE: usize = 60;

const MOST_BEHIND: usize = 40;

// What follows the fault of a command line.
const OPTIONS: &str = "
usage: ca run [--keypos N] [TREE] [--] FILE...
       ca run --seed S --clients C --lines L [TREE]
  --keypos N   which element of an object is its key: 1 to 120, and 1 without it
  --seed S     the number from which commands are made: 0 to 2147483647
  --clients C  how many clients have commands made: 1 to 64
  --lines L    how many commands each client has: 1 to 20000
TREE, what is said of the tree that the clients share:
  --rows N     how many rows it has: 384 to 16777215, and enough for the commands without it
  --levels N   at which level no base is split any more: 0 to 4096, and 4096 without it
  --leaf N     how many objects a base has at most: 2 to 120, and 64 without it
  --high N     above which statistic a base is split: 0 to 1000000, and 1000 without it
  --low N      below which one, minus N, it is due to be joined: 0 to 1000000, and 1000 without it
  --calm N     what an update takes from the statistic: 0 to 1000000, and 1 without it
  --heat N     what it adds: 0 to 1000000, and 0 without it
  --shape      print how many bases were split and joined
";

// Appends these bytes as text: a blank for a tab, `?` for any other control character and for each byte that is ill-formed.
fn show(bytes: &[u8], text: &mut String) -> Result<(), AllocError> {
    for chunk in bytes.utf8_chunks() {
        for character in chunk.valid().chars() {
            text.push(match character {
                '\t' => ' ',
                _ if character.is_control() => '?',
                _ => character,
            })?;
        }
        for _ in chunk.invalid() {
            text.push('?')?;
        }
    }
    Ok(())
}

// These bytes as text.
fn shown(alloc: Global, bytes: &[u8]) -> Result<String, AllocError> {
    let mut text = String::new(alloc);
    show(bytes, &mut text)?;
    Ok(text)
}

// The line of this number, counted from 1, without its end.
fn line_of(bytes: &[u8], number: u32) -> &[u8] {
    let before = (number as usize).saturating_sub(1);
    let mut lines = bytes.split(|byte| *byte == b'\n');
    let line = lines.nth(before).unwrap_or(&[]);
    line.strip_suffix(b"\r".as_slice()).unwrap_or(line)
}

// Appends the characters of a line around this byte of it, counted from 1, and below them a mark under the byte.
fn mark(alloc: Global, line: &[u8], at: u32, text: &mut String) -> Result<(), AllocError> {
    let place = (at as usize).saturating_sub(1).min(line.len());
    let (front, back) = line.split_at(place);
    // No character has over four bytes.
    let (near, _) = back.split_at(back.len().min(4 * MOST_BEHIND));
    let before = shown(alloc, front)?;
    let behind = shown(alloc, near)?;
    let count = before.as_str().chars().count();
    let skipped = count.saturating_sub(MOST_BEFORE);
    text.push_str("    ")?;
    for character in before.as_str().chars().skip(skipped) {
        text.push(character)?;
    }
    for character in behind.as_str().chars().take(MOST_BEHIND) {
        text.push(character)?;
    }
    text.push_str("\n    ")?;
    for _ in skipped..count {
        text.push(' ')?;
    }
    text.push_str("^\n")
}

// Why a line is refused.
fn reason(why: LineWhy) -> &'static str {
    match why {
        LineWhy::LineTooLong => "more than 8,192 bytes",
        LineWhy::NotUtf8 => "this is not UTF-8",
        LineWhy::UnknownWord => "no command has this name",
        LineWhy::Syntax => "no term goes on here",
        LineWhy::AtomTooLong => "an atom of more than 255 characters",
        LineWhy::TooDeep => "more than 64 levels",
        LineWhy::TooWide => "more than 120 elements",
        LineWhy::Absent => "an argument is missing",
        LineWhy::Extra => "something follows the last argument",
    }
}

// Whether this is a file or a folder, and no pipe or device, for which a second reader may have to wait.
fn may_open(rt: &HostRuntime, name: &str) -> bool {
    match fs::metadata(rt, name) {
        Ok(metadata) => metadata.is_file() || metadata.is_dir(),
        Err(_) => false,
    }
}

// Why the system does not let this file be read, where it tells so once more.
fn reason_unread(rt: &HostRuntime, name: &str) -> Option<io::Error> {
    if let Err(error) = fs::metadata(rt, name) {
        return Some(error);
    }
    if !may_open(rt, name) {
        return None;
    }
    match fs::open(rt, name) {
        Ok(mut file) => {
            let mut piece = [0; 1];
            file.read(&mut piece).err()
        }
        Err(error) => Some(error),
    }
}

// The bytes of the file of this name, or none.
fn bytes_of(rt: &HostRuntime, name: &str) -> Vec<u8>
    ensures { length result.items ≤ 16777216 }
{
    let mut bytes = Vec::new(rt.alloc());
    if !may_open(rt, name) {
        return bytes;
    }
    let mut shelf = DirShelf::new(rt.alloc(), rt);
    match shelf.fetch(rt.alloc(), name, MOST_BYTES, &mut bytes) {
        Ok(()) => bytes,
        Err(_) => Vec::new(rt.alloc()),
    }
}

// Appends why a line of this file is refused at this byte, and the line with a mark. Where the file has changed, neither is known.
fn tell_line(
    rt: &HostRuntime,
    name: &str,
    line: u32,
    at: u32,
    text: &mut String,
) -> Result<(), AllocError> {
    write!(text, "line {line}, byte {at}")?;
    let bytes = bytes_of(rt, name);
    match read_file(rt.alloc(), bytes.as_slice()) {
        Err(
            FileFault::BadLine {
                line: found,
                at: place,
                why,
            },
        ) if found == line && place == at => {
            let reason = reason(why);
            write!(text, ": {reason}\n")?;
            mark(rt.alloc(), line_of(bytes.as_slice(), line), at, text)
        }
        _ => text.push_str("\n"),
    }
}

// Appends why this file can't be read.
fn tell_unread(rt: &HostRuntime, name: &str, text: &mut String) -> Result<(), AllocError> {
    match reason_unread(rt, name) {
        Some(error) => write!(text, "{error}\n"),
        None => text.push_str("it can't be read\n"),
    }
}

// The name of this number, counted from 1, or none.
fn name_at(names: &[String], number: u32) -> &str {
    match names.get((number as usize).saturating_sub(1)) {
        Some(name) => name.as_str(),
        None => "",
    }
}

// The name of the file of this number, counted from 1.
fn name_of(alloc: Global, words: &[String], file: u32) -> &str {
    let Ok(Some(line)) = command_line_of(alloc, words) else {
        return "";
    };
    match line.request {
        Request::Files { names, .. } => name_at(names, file),
        Request::Generated { .. } => "",
    }
}

// Appends what is wrong with the file of this number: one line of it, or all.
fn tell_file(
    rt: &HostRuntime,
    words: &[String],
    file: u32,
    status: Status,
    text: &mut String,
) -> Result<(), AllocError> {
    let name = name_of(rt.alloc(), words, file);
    show(name.as_bytes(), text)?;
    text.push_str(": ")?;
    match status {
        Status::BadLine { line, at, .. } => tell_line(rt, name, line, at, text),
        Status::TooLong { .. } => {
            text.push_str("with it the files have more than 16,777,216 bytes together\n")
        }
        _ => tell_unread(rt, name, text),
    }
}

// Appends which word of the command line is at fault and why, and the list of options. No words are given where one isn't text.
fn tell_words(rt: &HostRuntime, words: &[String], text: &mut String) -> Result<(), AllocError> {
    if words.is_empty() && env::args(rt).is_err() {
        text.push_str("a word is not UTF-8")?;
    } else if let Some(fault) = fault_in(rt.alloc(), words)? {
        show(fault.as_str().as_bytes(), text)?;
    }
    text.push_str(OPTIONS)
}

// What is told of a call of these words that ended so.
fn told(rt: &HostRuntime, words: &[String], status: Status) -> Result<String, AllocError> {
    let mut text = "ca: ".to_string(rt.alloc())?;
    match status {
        Status::Done => text.clear(),
        Status::Usage => tell_words(rt, words, &mut text)?,
        Status::ShelfFault { file } | Status::BadLine { file, .. } | Status::TooLong { file } => {
            tell_file(rt, words, file, status, &mut text)?
        }
        Status::SinkFault => text.push_str("the output can't be written\n")?,
        Status::NoMemory => text.push_str("memory is wanting\n")?,
    }
    Ok(text)
}

/// Tells a person on standard error why a call of these words ended early: nothing where it is done.
pub fn tell(rt: &HostRuntime, words: &[String], status: Status) {
    let _ = match told(rt, words, status) {
        Ok(text) => rt.eprint(text.as_str()),
        Err(_) => rt.eprint("ca: memory is wanting\n"),
    };
}
