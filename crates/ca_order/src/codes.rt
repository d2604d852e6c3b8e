//! Codes of terms that stand one after the other, as in an object's code, read without decoding them.
ghost use Rattle.std.specs.Prelude.{◌≡◌, ◌++◌, ℕ, List, MatchOption, length, take};
ghost use Rattle.std.specs.Cmp.Lexicographic.{slice_cmp};
ghost use Rattle.std.specs.Ordering.{nat_cmp};
ghost use Rattle.ca_order.specs.Languages.{IsTermCode};
ghost use Rattle.ca_order.specs.Codes.{AreCodes, AreCodes-prop, IsTermCode-prop};

use crate::fault::DecodeFault;
use crate::leaves::{Leaf, read_leaf};
use crate::object::{skip_one, split_size};
use crate::reading::decode;
use crate::tags::{ATOM, CONS, NIL, TUPLE};
use ca_term::Term;
use std::alloc::{AllocError, Global};
use std::cmp::Ordering;

/// The bytes of one code. Contracts see its term by `tree_of`.
#[derive(Clone, Copy)]
pub struct Part<'a> {
    pub(crate) bytes: &'a [u8],
    pub ghost code: { IsTermCode bytes.now } by { IsTermCode-prop bytes.now },
}

/// The bytes of codes, one after the other. Contracts see their terms by `terms_of`.
#[derive(Clone, Copy)]
pub struct Codes<'a> {
    pub(crate) bytes: &'a [u8],
    pub ghost terms: { AreCodes bytes.now } by { AreCodes-prop bytes.now },
}

// The bytes behind these, where they are at the front. It goes by eight bytes, and then by one.
#[inline(always)]
#[tactic(auto, using(crate::proofs::Fronts::fronts))]
fn behind_bytes<'a>(bytes: &'a [u8], front: &[u8]) -> Option<&'a [u8]>
    ensures { MatchOption result ((rest : List ℕ) → bytes.now ≡ front.now ++ rest → ⊥) (λ rest. bytes.now ≡ front.now ++ rest.now) }
{
    let mut rest = bytes;
    let mut wanted = front;
    while let Some((eight, more)) = wanted.split_first_chunk::<8>() {
        let (found, behind) = rest.split_first_chunk::<8>()?;
        if u64::from_le_bytes(*found) != u64::from_le_bytes(*eight) {
            return None;
        }
        rest = behind;
        wanted = more;
    }
    behind_few(rest, wanted)
}

// The bytes behind these, where they are at the front, byte by byte.
#[inline(always)]
#[tactic(auto, using(crate::proofs::Fronts::fronts))]
fn behind_few<'a>(bytes: &'a [u8], front: &[u8]) -> Option<&'a [u8]>
    ensures { MatchOption result ((rest : List ℕ) → bytes.now ≡ front.now ++ rest → ⊥) (λ rest. bytes.now ≡ front.now ++ rest.now) }
{
    let mut rest = bytes;
    let mut wanted = front;
    while let Some((first, more)) = wanted.split_first() {
        let (byte, behind) = rest.split_first()?;
        if byte != first {
            return None;
        }
        rest = behind;
        wanted = more;
    }
    Some(rest)
}

// How many bytes of two codes are compared without a call: small integers of different lengths differ in the first one.
const FIRST: usize = 2;

// How many of those behind them are compared one by one: most parts differ among them, and the comparison of slices begins slowly.
const NEAR: usize = 14;

// How bytes stand to others.
#[inline(always)]
#[tactic(auto, using(crate::proofs::ByteOrder::byte_orders))]
fn order_of(bytes: &[u8], others: &[u8]) -> Ordering
    ensures { result ≡ slice_cmp nat_cmp bytes.now others.now }
{
    let mut left = bytes;
    let mut right = others;
    for _ in 0..FIRST {
        let Some((byte, more)) = left.split_first() else {
            return order_behind(left, right);
        };
        let Some((other, rest)) = right.split_first() else {
            return order_behind(left, right);
        };
        if *byte != *other {
            return byte.cmp(other);
        }
        left = more;
        right = rest;
    }
    order_behind(left, right)
}

// The same, where the first ones are the same.
#[inline(never)]
#[tactic(auto, using(crate::proofs::ByteOrder::byte_orders))]
fn order_behind(bytes: &[u8], others: &[u8]) -> Ordering
    ensures { result ≡ slice_cmp nat_cmp bytes.now others.now }
{
    let mut left = bytes;
    let mut right = others;
    for _ in 0..NEAR {
        let Some((byte, more)) = left.split_first() else {
            return left.cmp(right);
        };
        let Some((other, rest)) = right.split_first() else {
            return left.cmp(right);
        };
        if *byte != *other {
            return byte.cmp(other);
        }
        left = more;
        right = rest;
    }
    left.cmp(right)
}

// How as many of the first bytes as there are others stand to the others.
#[inline(always)]
#[tactic(auto, using(crate::proofs::ByteOrder::front_orders))]
fn order_of_front(bytes: &[u8], others: &[u8]) -> Ordering
    ensures { result ≡ slice_cmp nat_cmp (take (length others.now) bytes.now) others.now }
{
    let mut left = bytes;
    let mut right = others;
    for _ in 0..FIRST {
        let Some((other, rest)) = right.split_first() else {
            return Ordering::Equal;
        };
        let Some((byte, more)) = left.split_first() else {
            return Ordering::Less;
        };
        if *byte != *other {
            return byte.cmp(other);
        }
        left = more;
        right = rest;
    }
    order_of_front_behind(left, right)
}

// The same, where the first ones are the same.
#[inline(never)]
#[tactic(auto, using(crate::proofs::ByteOrder::front_orders))]
fn order_of_front_behind(bytes: &[u8], others: &[u8]) -> Ordering
    ensures { result ≡ slice_cmp nat_cmp (take (length others.now) bytes.now) others.now }
{
    let mut left = bytes;
    let mut right = others;
    for _ in 0..NEAR {
        let Some((other, rest)) = right.split_first() else {
            return Ordering::Equal;
        };
        let Some((byte, more)) = left.split_first() else {
            return Ordering::Less;
        };
        if *byte != *other {
            return byte.cmp(other);
        }
        left = more;
        right = rest;
    }
    front_of(left, right.len()).cmp(right)
}

// The first so many bytes, or all where there are fewer.
#[tactic(auto, using(crate::proofs::ByteOrder::take_more))]
fn front_of(bytes: &[u8], count: usize) -> &[u8]
    ensures { result.now ≡ take count bytes.now }
{
    if count < bytes.len() {
        bytes.split_at(count).0
    } else {
        bytes
    }
}

impl<'a> Part<'a> {
    ghost use Rattle.std.specs.Prelude.{◌≡◌, IfOk};
    ghost use Rattle.std.specs.Ordering.{is_eq};
    ghost use Rattle.ca_term.specs.Tree.{Tree, IsTerm};
    ghost use Rattle.ca_term.specs.Order.{rank, term_cmp};
    ghost use Rattle.ca_term.specs.Code.{code_of};
    ghost use Rattle.ca_order.specs.CodesView.{tree_of};

    /// A code by its bytes.
    #[inline(always)]
    pub fn of(code: &'a [u8]) -> Part<'a>
        requires { IsTermCode code.now }
        ensures { (t : Tree) → IsTerm t → code.entry.now ≡ code_of t → tree_of result ≡ t }
    {
        Part { bytes: code }
    }

    /// The term.
    pub fn term(self, alloc: Global) -> Result<Term, AllocError>
        ensures { IfOk result (λ term. term ≡ tree_of self.entry) }
    {
        let term = match decode(alloc, self.bytes) {
            Ok(term) => term,
            Err(DecodeFault::NoMemory) => return Err(AllocError),
            Err(DecodeFault::NotACode { at: _ }) => unreachable!(),
        };
        let _kind = term.kind();
        Ok(term)
    }

    /// The place of its term's kind in the order of kinds: number, atom, tuple, empty list, list cell, binary, from 0 on.
    #[inline(always)]
    pub fn rank(self) -> u8
        ensures { result ≡ rank (tree_of self.entry) }
    {
        let Some((tag, _)) = self.bytes.split_first() else {
            unreachable!()
        };
        match *tag {
            0x17..=0x28 => 0,
            ATOM => 1,
            TUPLE => 2,
            NIL => 3,
            CONS => 4,
            _ => 5,
        }
    }

    /// Whether both are codes of equal terms: whether the bytes are equal.
    #[inline(always)]
    pub fn same(self, other: Part<'_>) -> bool
        ensures { result ≡ is_eq (term_cmp (tree_of self.entry) (tree_of other.entry)) }
    {
        self.bytes == other.bytes
    }

    /// How its term stands to the other one in the term order: as the bytes do.
    #[inline(always)]
    pub fn order(self, other: Part<'_>) -> Ordering
        ensures { result ≡ term_cmp (tree_of self.entry) (tree_of other.entry) }
    {
        order_of(self.bytes, other.bytes)
    }
}

impl<'a> Codes<'a> {
    ghost use Rattle.std.specs.Prelude.{◌≡◌, ◌==◌, ◌≤◌, [], ◌∷◌, List, length, IfSome, MatchOption};
    ghost use Rattle.ca_term.specs.Tree.{Tree, Nil};
    ghost use Rattle.ca_term.specs.Order.{term_cmp};
    ghost use Rattle.ca_order.specs.Codes.{BeginsOtherwise, HasNoCell, HasNoTuple, IsOpened, IsOpenedCell};
    ghost use Rattle.ca_order.specs.CodesView.{terms_of, tree_of};
    ghost use Rattle.ca_order.specs.Leaves.{tree_of_leaf};

    /// The one code.
    #[inline(always)]
    pub fn of(part: Part<'a>) -> Codes<'a>
        ensures { terms_of result ≡ tree_of part.entry ∷ [] }
    {
        Codes { bytes: part.bytes }
    }

    /// Whether there are none.
    #[inline(always)]
    pub fn is_empty(self) -> bool
        ensures { result ≡ (length (terms_of self.entry) == 0) }
    {
        self.bytes.is_empty()
    }

    /// The first code, and the ones behind it. There has to be one.
    #[inline(always)]
    pub fn split(self) -> (Part<'a>, Codes<'a>)
        requires { 1 ≤ length (terms_of self) }
        ensures { terms_of self.entry ≡ tree_of result.0 ∷ terms_of result.1 }
    {
        let behind = skip_one(self.bytes);
        let (front, _) = self.bytes.split_at(self.bytes.len() - behind.len());
        (Part { bytes: front }, Codes { bytes: behind })
    }

    /// The first code, and the ones behind it, where there is one.
    #[inline(always)]
    pub fn first(self) -> Option<(Part<'a>, Codes<'a>)>
        ensures { MatchOption result (terms_of self.entry ≡ []) (λ p. terms_of self.entry ≡ tree_of p.0 ∷ terms_of p.1) }
    {
        if self.bytes.is_empty() {
            return None;
        }
        Some(self.split())
    }

    /// The first term, where it has no terms inside and its code holds it as it is, and the codes behind it. The code is read once and takes no
    /// memory. `None` tells nothing.
    #[inline(always)]
    pub fn leaf(self) -> Option<(Leaf<'a>, Codes<'a>)>
        ensures { IfSome result (λ p. terms_of self.entry ≡ tree_of_leaf p.0 ∷ terms_of p.1) }
    {
        let (leaf, rest) = read_leaf(self.bytes)?;
        Some((leaf, Codes { bytes: rest }))
    }

    /// Where the first term is the empty list, the codes behind it.
    #[inline(always)]
    pub fn behind_nil(self) -> Option<Codes<'a>>
        ensures { MatchOption result (BeginsOtherwise Nil (terms_of self.entry)) (λ rest. terms_of self.entry ≡ Nil ∷ terms_of rest) }
    {
        let (tag, rest) = self.bytes.split_first()?;
        if *tag != NIL {
            return None;
        }
        Some(Codes { bytes: rest })
    }

    /// How the first term stands to this one. Its code's end isn't looked for: no code begins with another one.
    #[inline(always)]
    pub fn order(self, part: Part<'_>) -> Ordering
        ensures { (first : Tree) (others : List Tree) → terms_of self.entry ≡ first ∷ others → result ≡ term_cmp first (tree_of part.entry) }
    {
        order_of_front(self.bytes, part.bytes)
    }

    /// Where the first term is a tuple, how many elements it has, and the codes with its elements in its place.
    #[inline(always)]
    pub fn open_tuple(self) -> Option<(usize, Codes<'a>)>
        ensures { MatchOption result (HasNoTuple (terms_of self.entry)) (λ p. IsOpened (terms_of self.entry) p.0 (terms_of p.1)) }
    {
        let (tag, inside) = self.bytes.split_first()?;
        if *tag != TUPLE {
            return None;
        }
        let (count, elements) = split_size(inside);
        Some((count, Codes { bytes: elements }))
    }

    /// Where the first term is a list cell, the codes with its head and its tail in its place.
    #[inline(always)]
    pub fn open_cell(self) -> Option<Codes<'a>>
        ensures { MatchOption result (HasNoCell (terms_of self.entry)) (λ inside. IsOpenedCell (terms_of self.entry) (terms_of inside)) }
    {
        let (tag, inside) = self.bytes.split_first()?;
        if *tag != CONS {
            return None;
        }
        Some(Codes { bytes: inside })
    }

    /// The codes behind the first one, where that is this code.
    #[inline(always)]
    pub fn behind(self, part: Part<'_>) -> Option<Codes<'a>>
        ensures { MatchOption result (BeginsOtherwise (tree_of part.entry) (terms_of self.entry)) (λ rest. terms_of self.entry ≡ tree_of part.entry ∷ terms_of rest) }
    {
        let rest = behind_bytes(self.bytes, part.bytes)?;
        Some(Codes { bytes: rest })
    }
}
