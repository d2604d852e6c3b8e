//! Parts of a command file, read at once. Where each begins, and how many lines stand before it, is found by a look at the LFs alone; it is one of the file
//! where the part before it ended just there.
ghost use Rattle.std.specs.Prelude.{◌≡◌, ◌≤◌, ℕ, List, length, IfOk, IfErr};
ghost use Rattle.ca_cmd.specs.Parts.{AreReadAs, IsPart, IsReadAs};
ghost use Rattle.ca_cmd.specs.Refusal.{IsCauseIn};

use crate::fault::FileFault;
use crate::part::{Part, read_part};
use memchr::{memchr, memchr_iter};
use std::alloc::{AllocError, Global};
use std::thread::{Threads, map_indices};

// In how many parts a file is read at most, and how many bytes a part has at least.
const MOST_PARTS: usize = 8;

const LEAST_BYTES: usize = 32_768;

// Where a part begins, and how many lines stand before it.
#[derive(Clone, Copy)]
pub(crate) struct Cut {
    pub from: u32,
    pub before: u32,
}

// What a part was read as that begins where it was cut.
#[derive(Drop)]
pub(crate) struct Piece {
    pub cut: Cut,
    pub outcome: Result<Part, FileFault>,
}

// How many LFs there are.
fn ends_in(bytes: &[u8]) -> u32 {
    let mut count = 0_u32;
    for _ in memchr_iter(b'\n', bytes) {
        count = count.saturating_add(1);
    }
    count
}

// Where the parts of a file begin, the first one at its front and each other one behind an LF.
fn cuts_of(alloc: Global, file: &[u8]) -> Result<Vec<Cut>, AllocError>
    requires { length file.now ≤ 16777216 }
{
    let size = (file.len() / MOST_PARTS + 1).max(LEAST_BYTES);
    let mut cuts = Vec::with_capacity(alloc, MOST_PARTS)?;
    let mut rest = file;
    let mut before = 0_u32;
    for _ in 0..MOST_PARTS {
        let from = file.len().saturating_sub(rest.len()) as u32;
        cuts.push(Cut { from, before })?;
        if rest.len() <= size {
            break;
        }
        let (front, behind) = rest.split_at(size);
        let Some(end) = memchr(b'\n', behind) else {
            break;
        };
        before = before.saturating_add(ends_in(front)).saturating_add(1);
        rest = &behind[end + 1..];
    }
    Ok(cuts)
}

// The cut at a place. Behind the last one there is a cut at the file's end.
fn cut_at(file: &[u8], cuts: &[Cut], place: usize) -> Cut
    requires { length file.now ≤ 16777216 }
{
    match cuts.get(place) {
        Some(cut) => *cut,
        None => Cut {
            from: file.len() as u32,
            before: 0,
        },
    }
}

// Reads the part from the cut at this place to the next one.
fn read_piece(alloc: Global, file: &[u8], cuts: &[Cut], place: usize) -> Piece
    requires { length file.now ≤ 16777216 }
    ensures { IsReadAs file.now result }
{
    let cut = cut_at(file, cuts, place);
    let next = cut_at(file, cuts, place.saturating_add(1));
    let from = (cut.from as usize).min(file.len());
    let to = (next.from as usize).max(from).min(file.len());
    let before = cut.before.min(from as u32);
    Piece {
        cut: Cut {
            from: from as u32,
            before,
        },
        outcome: read_part(alloc, file, from, before, to),
    }
}

// Reads the parts, each on a thread of its own, as far as threads can be made.
fn read_pieces<R: Threads + Sync>(
    rt: &R,
    alloc: Global,
    file: &[u8],
) -> Result<Vec<Piece>, AllocError>
    requires { length file.now ≤ 16777216 }
    ensures { IfOk result (λ pieces. AreReadAs file.now pieces.items) }
{
    let found = cuts_of(alloc, file)?;
    let cuts = found.as_slice();
    map_indices(
        rt,
        alloc,
        cuts.len(),
        &move |place: usize| -> Piece
            requires { length file.now ≤ 16777216 }
            ensures { IsReadAs file.entry.now result }
        { read_piece(alloc, file, cuts, place) },
    )
}

// Adds what a part was read as to those from the file's front, where it begins where they end.
fn add_piece(whole: &mut Part, piece: &Piece) -> Result<(), FileFault>
    requires { (file : List ℕ) × (length file ≤ 16777216) × IsPart file 0 0 whole.old × IsReadAs file piece.now }
    ensures added { (file : List ℕ) → IsPart file 0 0 whole.old → IsReadAs file piece.now → IfOk result (λ _. IsPart file 0 0 whole.new) }
    ensures refused { (file : List ℕ) → IsPart file 0 0 whole.old → IsReadAs file piece.now → IfErr result (λ e. IsCauseIn file e) }
{
    if piece.cut.from != whole.end || piece.cut.before != whole.lines {
        return Ok(());
    }
    match &piece.outcome {
        Ok(part) => Ok(whole.add(part)?),
        Err(fault) => Err(*fault),
    }
}

// The whole file, of which some parts were read. What they don't tell is read here.
fn put_together(alloc: Global, file: &[u8], pieces: &[Piece]) -> Result<Part, FileFault>
    requires size { length file.now ≤ 16777216 }
    requires read { AreReadAs file.now pieces.now }
    ensures read { IfOk result (λ part. IsPart file.now 0 0 part) }
    ensures whole { IfOk result (λ part. part.end ≡ length file.now) }
    ensures refused { IfErr result (λ e. IsCauseIn file.now e) }
{
    let mut whole = Part::none(alloc);
    for piece in pieces {
        add_piece(&mut whole, piece)?;
    }
    let rest = read_part(alloc, file, whole.end as usize, whole.lines, file.len())?;
    whole.add(&rest)?;
    Ok(whole)
}

// The lines of a file, which is read in parts.
pub(crate) fn read_parts<R: Threads + Sync>(
    rt: &R,
    alloc: Global,
    file: &[u8],
) -> Result<Part, FileFault>
    requires { length file.now ≤ 16777216 }
    ensures read { IfOk result (λ part. IsPart file.now 0 0 part) }
    ensures whole { IfOk result (λ part. part.end ≡ length file.now) }
    ensures refused { IfErr result (λ e. IsCauseIn file.now e) }
{
    let pieces = read_pieces(rt, alloc, file)?;
    put_together(alloc, file, pieces.as_slice())
}
