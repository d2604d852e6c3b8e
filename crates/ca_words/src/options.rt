//! The options, which `clap` takes apart, and their values.
ghost use Rattle.std.specs.Prelude.{◌≡◌, ◌≤◌, IfOk, None, Some, nat_le, length, map, option_map, if◌then◌else◌};
ghost use Rattle.std.specs.List.{fold, list_all};
ghost use Rattle.std.specs.String.{string_bytes};
ghost use Rattle.clap.specs.Words.{app_of, first_value, found_of, with_rule};
ghost use Rattle.ca_words.specs.Grammar.{is_digit, least_of, most_of, number_after};
ghost use Rattle.ca_words.specs.Words.{bare, command, flag, flag_rule, given_in, is_flagged, is_value, options_in, tree_in, tree_names, value_in, value_told, with_option};

use crate::tree::TreeOptions;
use crate::words::Name;
use clap::error::ErrorKind;
use clap::{Arg, ArgAction, ArgMatches, Command};
use std::alloc::{AllocError, Global};

// The option that has no value.
pub(crate) const FLAG: &str = "shape";

// The values of the options that were given.
#[derive(Clone, Copy)]
pub(crate) struct Options {
    pub(crate) keypos: Option<u32>,
    pub(crate) seed: Option<u32>,
    pub(crate) clients: Option<u32>,
    pub(crate) lines: Option<u32>,
    pub(crate) tree: TreeOptions,
}

// The name of an option, without dashes.
pub(crate) fn bare(name: Name) -> &'static str
    ensures { result.now ≡ bare name }
{
    match name {
        Name::Keypos => "keypos",
        Name::Seed => "seed",
        Name::Clients => "clients",
        Name::Lines => "lines",
        Name::Rows => "rows",
        Name::Levels => "levels",
        Name::Leaf => "leaf",
        Name::High => "high",
        Name::Low => "low",
        Name::Calm => "calm",
        Name::Heat => "heat",
    }
}

// The least and the greatest value of an option.
pub(crate) fn bounds(name: Name) -> (u64, u64)
    ensures least { result.0 ≡ least_of name }
    ensures most { result.1 ≡ most_of name }
    ensures short { result.1 ≤ 2147483647 }
{
    match name {
        Name::Keypos => (1, 120),
        Name::Seed => (0, 2_147_483_647),
        Name::Clients => (1, 64),
        Name::Lines => (1, 20_000),
        Name::Rows => (384, 16_777_215),
        Name::Levels => (0, 4_096),
        Name::Leaf => (2, 120),
        Name::High => (0, 1_000_000),
        Name::Low => (0, 1_000_000),
        Name::Calm => (0, 1_000_000),
        Name::Heat => (0, 1_000_000),
    }
}

fn are_digits(text: &[u8]) -> bool
    ensures { result ≡ list_all is_digit text.now }
{
    text.iter().all(|b| b'0' <= *b && *b <= b'9')
}

// Whether these are 1 to 10 decimal digits.
fn is_value(text: &[u8]) -> bool
    ensures { result ≡ is_value text.now }
{
    !text.is_empty() && text.len() <= 10 && are_digits(text)
}

// The number that these digits write, where it is at most `most`.
#[tactic(auto, unfolding(crate::specs::Grammar::number_after), using(crate::proofs::Numbers::number_grows))]
fn number_up_to(most: u64, digits: &[u8]) -> Option<u64>
    requires { most ≤ 2147483647 }
    ensures { result ≡ (if nat_le (number_after 0 digits.now) most then Some (number_after 0 digits.now) else None) }
{
    let mut number = 0;
    let mut rest = digits;
    while let [digit, after @ ..] = rest {
        if number > most {
            return None;
        }
        number = number * 10 + u64::from(digit.saturating_sub(b'0'));
        rest = after;
    }
    if number > most {
        return None;
    }
    Some(number)
}

// The value that a text writes for an option.
pub(crate) fn value_in(name: Name, text: &[u8]) -> Option<u32>
    ensures { result ≡ value_in name text.now }
{
    if !is_value(text) {
        return None;
    }
    let (least, most) = bounds(name);
    match number_up_to(most, text) {
        Some(value) if least <= value => Some(value as u32),
        _ => None,
    }
}

// The value of an option, where it has one; `None` where it has another text than a value's.
fn value_told(name: Name, text: Option<&str>) -> Option<Option<u32>>
    ensures { result ≡ value_told name (option_map (λ t. t.now) text.entry) }
{
    match text {
        None => Some(None),
        Some(text) => {
            let value = value_in(name, text.as_bytes())?;
            Some(Some(value))
        }
    }
}

// The command with one more option, of one value.
fn with_option<'a>(
    alloc: Global,
    command: Command<'a>,
    name: Name,
) -> Result<Command<'a>, AllocError>
    ensures { IfOk result (λ c. app_of c ≡ with_option (app_of command.entry) name) }
{
    let text: &'a str = bare(name);
    let option: Arg<'a> = Arg::new(alloc, text).long(text);
    command.arg(option)
}

// The command that has the options alone, each with one value, and the one that has none: no help, no version and no files.
pub(crate) fn command<'a>(alloc: Global) -> Result<Command<'a>, AllocError>
    ensures { IfOk result (λ c. app_of c ≡ command) }
{
    let empty = Command::new(alloc, "run")
        .no_binary_name(true)
        .disable_help_flag(true)
        .disable_version_flag(true);
    let one = with_option(alloc, empty, Name::Keypos)?;
    let two = with_option(alloc, one, Name::Seed)?;
    let three = with_option(alloc, two, Name::Clients)?;
    let four = with_option(alloc, three, Name::Lines)?;
    let all = with_tree_options(alloc, four)?;
    with_flag(alloc, all)
}

// The command with the option that has no value.
fn with_flag<'a>(alloc: Global, command: Command<'a>) -> Result<Command<'a>, AllocError>
    ensures { IfOk result (λ c. app_of c ≡ with_rule (app_of command.entry) flag_rule) }
{
    let text: &'a str = FLAG;
    let flag: Arg<'a> = Arg::new(alloc, text).long(text).action(ArgAction::SetTrue);
    command.arg(flag)
}

// The command with the options of the tree.
fn with_tree_options<'a>(alloc: Global, command: Command<'a>) -> Result<Command<'a>, AllocError>
    ensures { IfOk result (λ c. app_of c ≡ fold with_option (app_of command.entry) tree_names) }
{
    let one = with_option(alloc, command, Name::Rows)?;
    let two = with_option(alloc, one, Name::Levels)?;
    let three = with_option(alloc, two, Name::Leaf)?;
    let four = with_option(alloc, three, Name::High)?;
    let five = with_option(alloc, four, Name::Low)?;
    let six = with_option(alloc, five, Name::Calm)?;
    with_option(alloc, six, Name::Heat)
}

fn value_of(matches: &ArgMatches<'_>, name: Name) -> Option<Option<u32>>
    ensures { result ≡ value_told name (first_value (found_of matches.now) (bare name)) }
{
    value_told(name, matches.get_str(bare(name)))
}

// Whether the option without a value was given, by the text that `clap` keeps for it.
fn is_flagged(text: Option<&str>) -> bool
    ensures { result ≡ is_flagged (option_map (λ t. t.now) text.entry) }
{
    match text {
        Some(text) => text == "true",
        None => false,
    }
}

// The values of the options of the tree, where each text is a value.
fn tree_in(matches: &ArgMatches<'_>) -> Option<TreeOptions>
    ensures { result ≡ tree_in (λ name. first_value (found_of matches.now) (bare name)) (first_value (found_of matches.now) flag) }
{
    Some(TreeOptions {
        rows: value_of(matches, Name::Rows)?,
        levels: value_of(matches, Name::Levels)?,
        leaf: value_of(matches, Name::Leaf)?,
        high: value_of(matches, Name::High)?,
        low: value_of(matches, Name::Low)?,
        calm: value_of(matches, Name::Calm)?,
        heat: value_of(matches, Name::Heat)?,
        shape: is_flagged(matches.get_str(FLAG)),
    })
}

// The values of the options of these matches, where each text is a value.
pub(crate) fn given_in(matches: &ArgMatches<'_>) -> Option<Options>
    ensures { result ≡ given_in (λ name. first_value (found_of matches.now) (bare name)) (first_value (found_of matches.now) flag) }
{
    Some(Options {
        keypos: value_of(matches, Name::Keypos)?,
        seed: value_of(matches, Name::Seed)?,
        clients: value_of(matches, Name::Clients)?,
        lines: value_of(matches, Name::Lines)?,
        tree: tree_in(matches)?,
    })
}

// The values that these words give the options, where they are the words of options.
pub(crate) fn options_in(alloc: Global, words: &[String]) -> Result<Option<Options>, AllocError>
    ensures { IfOk result (λ o. o ≡ options_in (map string_bytes words.now)) }
{
    match command(alloc)?.try_get_matches_from(words) {
        Ok(matches) => Ok(given_in(&matches)),
        Err(error) if error.kind() == ErrorKind::OutOfMemory => Err(AllocError),
        Err(_) => Ok(None),
    }
}
