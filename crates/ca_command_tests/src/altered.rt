//! Histories with one answer altered, which mostly nothing explains.
use crate::counts::place_of;
use crate::draws::Draws;
use crate::merges::Side;
use ca_cmd::Line;
use ca_text::put;
use std::alloc::{AllocError, Global};

// A line with its answer.
type Answered<'a> = (&'a Line, &'a [u8]);

fn answered(side: &Side, at: usize) -> Option<Answered<'_>> {
    match (
        side.lines.as_slice().get(at),
        side.answers.as_slice().get(at),
    ) {
        (Some(line), Some(answer)) => Some((line, answer.as_slice())),
        _ => None,
    }
}

// An answer that another line with the same command word was given, if one was given another answer than this line was.
fn other_answer<'a>(sides: &'a [Side], (line, answer): Answered<'_>) -> Option<&'a [u8]> {
    for side in sides {
        for at in 0..side.lines.len() {
            if let Some((other, given)) = answered(side, at) {
                if place_of(&other.cmd) == place_of(&line.cmd) && given != answer {
                    return Some(given);
                }
            }
        }
    }
    None
}

// Puts into the place of an answer that is drawn one that another line with the same command word was given. False where there is no other one.
fn alter_one(alloc: Global, sides: &mut [Side], draws: &mut Draws) -> Result<bool, AllocError> {
    let client = draws.place(sides.len());
    let Some(side) = sides.get(client) else {
        return Ok(false);
    };
    let at = draws.place(side.lines.len());
    let Some(own) = answered(side, at) else {
        return Ok(false);
    };
    let Some(other) = other_answer(sides, own) else {
        return Ok(false);
    };
    let mut copy = Vec::new(alloc);
    put(other, &mut copy)?;
    let Some(side) = sides.get_mut(client) else {
        return Ok(false);
    };
    if let Some(answer) = side.answers.as_mut_slice().get_mut(at) {
        *answer = copy;
    }
    Ok(true)
}

/// Puts into the place of some answer one that another line with the same command word was given, of whichever client. False where none was found.
pub(crate) fn alter(
    alloc: Global,
    sides: &mut [Side],
    draws: &mut Draws,
) -> Result<bool, AllocError> {
    for _ in 0..100 {
        if alter_one(alloc, sides, draws)? {
            return Ok(true);
        }
    }
    Ok(false)
}
