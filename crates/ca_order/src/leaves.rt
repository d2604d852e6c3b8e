//! Terms with no terms inside, read where their codes stand.
ghost use Rattle.std.specs.Prelude.{◌≤◌, ◌∷◌, IfSome};
ghost use Rattle.ca_order.specs.IntTag.{first_byte};
ghost use Rattle.ca_order.specs.Leaves.{tree_of_leaf};
ghost use Rattle.ca_order.specs.Reads.{BeginsWithTerm};

use crate::atoms::short_text;
use crate::binaries::run_to_end;
use crate::digits::read_digits;
use crate::tags::{ATOM, BINARY, NIL};

/// A term with no terms inside: its value, and its text or bytes where they stand in the code. Contracts see the term by `tree_of_leaf`.
#[derive(Clone, Copy)]
pub enum Leaf<'a> {
    Integer(i64),
    Text(&'a str),
    Nil,
    Bytes(&'a [u8]),
}

// The term with no terms inside that these bytes begin with, and the bytes behind it. `None` tells nothing: what holds a zero byte doesn't stand in
// its code as it is.
#[inline(always)]
pub(crate) fn read_leaf(bytes: &[u8]) -> Option<(Leaf<'_>, &[u8])>
    ensures { IfSome result (λ p. BeginsWithTerm 1 bytes.now (tree_of_leaf p.0) p.1.now) }
{
    let (tag, inside) = bytes.split_first()?;
    match *tag {
        0x17..=0x1f => read_number(inside, 0x1f - *tag, true),
        0x20..=0x28 => read_number(inside, *tag - 0x20, false),
        ATOM => match short_text(inside) {
            Some((text, rest)) => Some((Leaf::Text(text), rest)),
            None => None,
        },
        NIL => Some((Leaf::Nil, inside)),
        BINARY => match run_to_end(inside) {
            Some((run, rest)) => Some((Leaf::Bytes(run), rest)),
            None => None,
        },
        _ => None,
    }
}

// The integer whose digits these bytes begin with, so many and complemented for a negative one, and the bytes behind them.
#[inline(always)]
fn read_number(bytes: &[u8], len: u8, negative: bool) -> Option<(Leaf<'_>, &[u8])>
    requires { len ≤ 8 }
    ensures { IfSome result (λ p. BeginsWithTerm 1 (first_byte negative len ∷ bytes.now) (tree_of_leaf p.0) p.1.now) }
{
    let Ok((number, rest)) = read_digits(bytes, len, negative) else {
        return None;
    };
    match negative {
        true => Some((Leaf::Integer(-1 - number as i64), rest)),
        false => Some((Leaf::Integer(number as i64), rest)),
    }
}
