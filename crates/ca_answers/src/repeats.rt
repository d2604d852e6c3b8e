//! Lines with parts that are repeated. `repeat MARK COUNT PART LINE` stands for the line with so many parts in the place of each mark.

use crate::say::say;
use bstr::ByteSlice;
use std::alloc::Global;

// A line may have so many marks.
const MOST_MARKS: u32 = 4;

/// The line that this one stands for.
pub(crate) fn written_out(alloc: Global, line: &[u8]) -> Vec<u8> {
    let mut whole = Vec::new(alloc);
    say(line, &mut whole);
    for _ in 0..MOST_MARKS {
        match without_mark(alloc, whole.as_slice()) {
            Some(next) => whole = next,
            None => break,
        }
    }
    whole
}

fn without_mark(alloc: Global, line: &[u8]) -> Option<Vec<u8>> {
    let rest = line.strip_prefix(b"repeat ")?;
    let (mark, rest) = rest.split_once_str(b" ")?;
    let (count, rest) = rest.split_once_str(b" ")?;
    let (part, rest) = rest.split_once_str(b" ")?;
    let count = str::from_utf8(count).ok()?.parse::<u32>().ok()?;
    let mark = mark.first()?;
    let mut whole = Vec::new(alloc);
    for byte in rest {
        if byte == mark {
            for _ in 0..count {
                say(part, &mut whole);
            }
        } else {
            say(&[*byte], &mut whole);
        }
    }
    Some(whole)
}
