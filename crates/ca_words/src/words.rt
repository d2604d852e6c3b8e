//! What the words of the command line ask for.
ghost use Rattle.std.specs.Prelude.{◌≡◌, ◌≤◌, IfOk, IfSome, Some, false, length, map, not, option_map};
ghost use Rattle.std.specs.List.{list_all};
ghost use Rattle.std.specs.String.{string_bytes};
ghost use Rattle.ca_words.specs.Grammar.{IsBounded, IsLineOf, IsWithin, Request as Asked, are_undashed, begins_with_dash};
ghost use Rattle.ca_words.specs.declared.tree.TreeOptions.{TreeOptions};
ghost use Rattle.ca_words.specs.Words.{asking_in, has_equals, is_option, line_behind, line_of, line_with, names_in, options_end, request_in, request_with, texts_of};

use crate::options::{Options, options_in};
use crate::tree::TreeOptions;
use std::alloc::{AllocError, Global};

// The most files that a call names.
pub(crate) const MOST_FILES: usize = 64;

/// What a call is asked for.
#[derive(Clone, Copy)]
pub enum Request<'a> {
    /// Files of these names are played. `keypos` is which element of an object is its key, counted from 1.
    Files { keypos: u32, names: &'a [String] },
    /// So many lines are made for each of so many clients, from a seed, and played.
    Generated { seed: u32, clients: u32, lines: u32 },
}

/// What a command line asks for, and what it says of the tree.
#[derive(Clone, Copy)]
pub struct CommandLine<'a> {
    pub request: Request<'a>,
    pub tree: TreeOptions,
}

// The options.
#[derive(Clone, Copy)]
pub(crate) enum Name {
    Keypos,
    Seed,
    Clients,
    Lines,
    Rows,
    Levels,
    Leaf,
    High,
    Low,
    Calm,
    Heat,
}

// What these options ask for together with these file words.
fn request_with(given: Options, names: &[String]) -> Option<Request<'_>>
    ensures { option_map request_in result ≡ request_with given (map string_bytes names.now) }
{
    let keypos = given.keypos.unwrap_or(1);
    if names.is_empty() {
        return match (given.seed, given.clients, given.lines) {
            (Some(seed), Some(clients), Some(lines)) if keypos == 1 => Some(Request::Generated {
                seed,
                clients,
                lines,
            }),
            _ => None,
        };
    }
    if given.seed.is_some()
        || given.clients.is_some()
        || given.lines.is_some()
        || names.len() > MOST_FILES
    {
        return None;
    }
    Some(Request::Files { keypos, names })
}

pub(crate) fn begins_with_dash(word: &str) -> bool
    ensures { result ≡ begins_with_dash word.now }
{
    word.starts_with('-')
}

fn all_undashed(words: &[String]) -> bool
    ensures { result ≡ list_all (λ word. not (begins_with_dash (string_bytes word))) words.now }
{
    words.iter().all(|word| !word.as_str().starts_with('-'))
}

fn are_undashed(words: &[String]) -> bool
    ensures { result ≡ are_undashed (map string_bytes words.now) }
{
    all_undashed(words)
}

// Whether the word is two dashes and more.
fn is_option(word: &[u8]) -> bool
    ensures { result ≡ is_option word.now }
{
    matches!(word, [b'-', b'-', _, ..])
}

fn has_equals(word: &[u8]) -> bool
    ensures { result ≡ has_equals word.now }
{
    word.iter().any(|b| *b == b'=')
}

// How many words stand before the files and the word `--`: options, and words without a dash right behind an option that has no `=`.
#[tactic(auto, unfolding(crate::specs::Words::options_end))]
pub(crate) fn options_end(words: &[String]) -> usize
    ensures value { result ≡ options_end false (map string_bytes words.now) }
    ensures within { result ≤ length words.now }
{
    let mut end = 0;
    let mut waits = false;
    let mut rest = words;
    while let [word, after @ ..] = rest {
        if is_option(word.as_bytes()) {
            waits = !has_equals(word.as_bytes()) && word.as_str() != "--shape";
        } else if waits && !begins_with_dash(word.as_str()) {
            waits = false;
        } else {
            break;
        }
        end += 1;
        rest = after;
    }
    end
}

// The file words behind the options. Without `--` none of them begins with a dash.
fn names_in(words: &[String]) -> Option<&[String]>
    ensures { option_map texts_of result ≡ names_in (map string_bytes words.now) }
{
    match words {
        [parting, names @ ..] if parting.as_str() == "--" => Some(names),
        _ if are_undashed(words) => Some(words),
        _ => None,
    }
}

// What these options ask for together with these file words, and what they say of the tree.
fn line_with(given: Options, names: &[String]) -> Option<CommandLine<'_>>
    ensures { option_map asking_in result ≡ line_with given (map string_bytes names.now) }
{
    let request = request_with(given, names)?;
    Some(CommandLine {
        request,
        tree: given.tree,
    })
}

// What is asked for by the words behind the word `run`.
fn line_behind(alloc: Global, words: &[String]) -> Result<Option<CommandLine<'_>>, AllocError>
    ensures { IfOk result (λ r. option_map asking_in r ≡ line_behind (map string_bytes words.now)) }
{
    let (options, rest) = words.split_at(options_end(words));
    let Some(names) = names_in(rest) else {
        return Ok(None);
    };
    match options_in(alloc, options)? {
        Some(given) => Ok(line_with(given, names)),
        None => Ok(None),
    }
}

// What the words ask for, word for word as the reader's definition says.
fn read(alloc: Global, words: &[String]) -> Result<Option<CommandLine<'_>>, AllocError>
    ensures { IfOk result (λ r. option_map asking_in r ≡ line_of (map string_bytes words.now)) }
{
    match words {
        [run, rest @ ..] if run.as_str() == "run" => line_behind(alloc, rest),
        _ => Ok(None),
    }
}

/// What the words after the program's name ask for, and what they say of the tree, or `None` where they are no command line; `Err` where memory lacks.
///
/// The first word is `run`. Options follow, each at most once, as `--name value` or `--name=value`, with 1 to 10 decimal digits as the value:
/// `--keypos` (1 to 120, else 1), `--seed` (0 to 2,147,483,647), `--clients` (1 to 64), `--lines` (1 to 20,000), and of the tree `--rows` (384 to
/// 16,777,215), `--levels` (0 to 4,096), `--leaf` (2 to 120), `--high`, `--low`, `--calm` and `--heat` (0 to 1,000,000), and `--shape`, which has no value.
/// Then stand, perhaps behind the word `--`, 1 to 64 file words without `--seed`, `--clients` and `--lines`, or none with all three, and then `--keypos` is 1
/// or absent. Without `--` no file word begins with `-`, and no option follows a file word.
pub fn command_line_of(
    alloc: Global,
    words: &[String],
) -> Result<Option<CommandLine<'_>>, AllocError>
    ensures sound { IfOk result (λ r. (request : Asked) (tree : TreeOptions) → option_map asking_in r ≡ Some (request, tree)
        → IsLineOf (map string_bytes words.now) request tree) }
    ensures complete { IfOk result (λ r. (request : Asked) (tree : TreeOptions) → IsLineOf (map string_bytes words.now) request tree
        → option_map asking_in r ≡ Some (request, tree)) }
    ensures bounded { IfOk result (λ r. IfSome r (λ line. IsBounded (request_in line.request))) }
    ensures within { IfOk result (λ r. IfSome r (λ line. IsWithin line.tree)) }
{
    read(alloc, words)
}
