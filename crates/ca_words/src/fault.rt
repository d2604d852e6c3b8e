//! What is wrong with a command line, in words for a person. Contracts say nothing of the words.
use crate::options::{Options, bare, bounds, command, given_in, value_in};
use crate::words::{MOST_FILES, Name, begins_with_dash, options_end};
use clap::error::ErrorKind;
use clap::{ArgMatches, Error};
use std::alloc::{AllocError, Global};

// The first line of what `clap` says of a mistake, behind the word that each begins with.
fn first_line(alloc: Global, said: &str) -> Result<String, AllocError> {
    let mut line = String::new(alloc);
    for character in said.strip_prefix("error: ").unwrap_or(said).chars() {
        if character == '\n' {
            break;
        }
        line.push(character)?;
    }
    Ok(line)
}

// What `clap` says of a mistake.
fn told_of(alloc: Global, error: &Error) -> Result<Option<String>, AllocError> {
    let said = format!(in alloc; "{error}")?;
    Ok(Some(first_line(alloc, said.as_str())?))
}

// What is wrong with the value of this option, where it has one.
fn fault_in_value(
    alloc: Global,
    matches: &ArgMatches<'_>,
    name: Name,
) -> Result<Option<String>, AllocError> {
    let Some(text) = matches.get_str(bare(name)) else {
        return Ok(None);
    };
    if value_in(name, text.as_bytes()).is_some() {
        return Ok(None);
    }
    let (least, most) = bounds(name);
    let option = bare(name);
    let fault = format!(in alloc;
        "the value '{text}' of --{option} is no number of at most 10 digits from {least} to {most}"
    )?;
    Ok(Some(fault))
}

// The options that have values, in the order of their list.
const NAMES: [Name; 11] = [
    Name::Keypos,
    Name::Seed,
    Name::Clients,
    Name::Lines,
    Name::Rows,
    Name::Levels,
    Name::Leaf,
    Name::High,
    Name::Low,
    Name::Calm,
    Name::Heat,
];

// What is wrong with the values of the options: the first of them, in the order of the list of options.
fn fault_in_values(alloc: Global, matches: &ArgMatches<'_>) -> Result<Option<String>, AllocError> {
    for name in NAMES {
        if let Some(fault) = fault_in_value(alloc, matches, name)? {
            return Ok(Some(fault));
        }
    }
    Ok(None)
}

// What is wrong with these options where no file stands behind them.
fn fault_without_files(alloc: Global, given: Options) -> Result<Option<String>, AllocError> {
    let fault = match (given.seed, given.clients, given.lines) {
        (None, None, None) => "no file is named",
        (None, _, _) => "--seed is missing: --seed, --clients and --lines stand together",
        (_, None, _) => "--clients is missing: --seed, --clients and --lines stand together",
        (_, _, None) => "--lines is missing: --seed, --clients and --lines stand together",
        _ if given.keypos.unwrap_or(1) != 1 => {
            "--keypos has another value than 1, the only one beside --seed, --clients and --lines"
        }
        _ => return Ok(None),
    };
    Ok(Some(fault.to_string(alloc)?))
}

// What is wrong with these file words behind these options.
fn fault_with_files(
    alloc: Global,
    given: Options,
    names: &[String],
) -> Result<Option<String>, AllocError> {
    let [first, ..] = names else {
        return fault_without_files(alloc, given);
    };
    if given.seed.is_some() || given.clients.is_some() || given.lines.is_some() {
        let fault = format!(in alloc;
            "the file '{first}' stands behind --seed, --clients or --lines, which take no file"
        )?;
        return Ok(Some(fault));
    }
    if let Some(name) = names.get(MOST_FILES) {
        let fault = format!(in alloc; "'{name}' is one file more than {MOST_FILES}")?;
        return Ok(Some(fault));
    }
    Ok(None)
}

// What is wrong with the words behind the options: a word with a dash among the files, or what they are together.
fn fault_in_rest(
    alloc: Global,
    given: Options,
    rest: &[String],
) -> Result<Option<String>, AllocError> {
    if let [parting, names @ ..] = rest
        && parting.as_str() == "--"
    {
        return fault_with_files(alloc, given, names);
    }
    for word in rest {
        if begins_with_dash(word.as_str()) {
            let fault = format!(in alloc;
                "'{word}' is no option here: options stand before the files, and files whose names begin with '-' behind the word '--'"
            )?;
            return Ok(Some(fault));
        }
    }
    fault_with_files(alloc, given, rest)
}

// What is wrong with the words behind the word `run`.
fn fault_behind(alloc: Global, words: &[String]) -> Result<Option<String>, AllocError> {
    let (options, rest) = words.split_at(options_end(words));
    let matches = match command(alloc)?.try_get_matches_from(options) {
        Ok(matches) => matches,
        Err(error) if error.kind() == ErrorKind::OutOfMemory => return Err(AllocError),
        Err(error) => return told_of(alloc, &error),
    };
    match given_in(&matches) {
        Some(given) => fault_in_rest(alloc, given, rest),
        None => fault_in_values(alloc, &matches),
    }
}

/// Why the words after the program's name are no command line, in words for a person: `None` where they are one, `Err` where memory lacks.
pub fn fault_in(alloc: Global, words: &[String]) -> Result<Option<String>, AllocError> {
    match words {
        [] => Ok(Some("the word 'run' is missing".to_string(alloc)?)),
        [run, rest @ ..] if run.as_str() == "run" => fault_behind(alloc, rest),
        [first, ..] => {
            let fault = format!(in alloc; "the first word is '{first}' and not 'run'")?;
            Ok(Some(fault))
        }
    }
}
