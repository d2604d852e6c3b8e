//! Zero bytes, which stand escaped in a code.
ghost use Rattle.std.specs.Prelude.{◌≡◌, ◌∷◌, ◌++◌, IfSome, MatchOption};
ghost use Rattle.ca_order.specs.Zeros.{HasNoZero, IsZeroAt};
ghost use Rattle.ca_order.specs.Escapes.{IsEscape};

use memchr::memchr;
use std::simd::prelude::*;

// The bytes before the first zero byte and those behind it, or None where there is no zero byte.
pub(crate) fn split_at_zero(bytes: &[u8]) -> Option<(&[u8], &[u8])>
    ensures { MatchOption result (HasNoZero bytes.now) (λ p. HasNoZero p.0.now × (bytes.now ≡ p.0.now ++ 0 ∷ p.1.now)) }
{
    match memchr(0, bytes) {
        Some(zero) => Some((&bytes[..zero], &bytes[zero + 1..])),
        None => None,
    }
}

// How many bytes are looked at at once.
const NEAR: usize = 16;

// How many bytes are looked at one by one: most texts and binaries end among them, and a search for a byte begins slowly.
const SOME: usize = 32;

// The bytes before the first zero byte and those behind it, which is mostly one of the first few.
#[inline(always)]
pub(crate) fn split_at_first_zero(bytes: &[u8]) -> Option<(&[u8], &[u8])>
    ensures { IfSome result (λ p. HasNoZero p.0.now × (bytes.now ≡ p.0.now ++ 0 ∷ p.1.now)) }
{
    match split_at_near_zero(bytes) {
        Some(parts) => Some(parts),
        None => split_at_zero(bytes),
    }
}

// The same, where it is one of the first few.
#[inline(always)]
fn split_at_near_zero(bytes: &[u8]) -> Option<(&[u8], &[u8])>
    ensures { IfSome result (λ p. HasNoZero p.0.now × (bytes.now ≡ p.0.now ++ 0 ∷ p.1.now)) }
{
    let at = near_zero(bytes)?;
    Some((&bytes[..at], &bytes[at + 1..]))
}

// The place of the first zero byte, where that is one of the first few.
#[inline(always)]
fn near_zero(bytes: &[u8]) -> Option<usize>
    ensures { IfSome result (λ at. IsZeroAt bytes.now at) }
{
    match bytes.split_first_chunk::<NEAR>() {
        Some((near, _)) => match zero_among(near) {
            Some(at) => Some(at),
            None => some_zero(bytes),
        },
        None => zero_in(bytes),
    }
}

// The bytes before the first zero byte and those behind it, where there are so many bytes and it is one of the first few. It is told without a call.
#[inline(always)]
pub(crate) fn split_at_first_few(bytes: &[u8]) -> Option<(&[u8], &[u8])>
    ensures { IfSome result (λ p. HasNoZero p.0.now × (bytes.now ≡ p.0.now ++ 0 ∷ p.1.now)) }
{
    let at = zero_of_few(bytes)?;
    Some((&bytes[..at], &bytes[at + 1..]))
}

// The place of the first zero byte, where there are so many bytes and it is one of the first few.
#[inline(always)]
fn zero_of_few(bytes: &[u8]) -> Option<usize>
    ensures { IfSome result (λ at. IsZeroAt bytes.now at) }
{
    match bytes.split_first_chunk::<NEAR>() {
        Some((near, _)) => zero_among(near),
        None => None,
    }
}

// The place of the first zero byte among these, which are compared with zero at once.
#[inline(always)]
fn zero_among(near: &[u8; NEAR]) -> Option<usize>
    ensures { IfSome result (λ at. IsZeroAt near.now at) }
{
    let zeros = u8x16::from_array(*near)
        .simd_eq(u8x16::splat(0))
        .to_bitmask();
    if zeros == 0 {
        return None;
    }
    Some(zeros.trailing_zeros() as usize)
}

// The same among some bytes more.
#[inline(never)]
fn some_zero(bytes: &[u8]) -> Option<usize>
    ensures { IfSome result (λ at. IsZeroAt bytes.now at) }
{
    match bytes.split_first_chunk::<SOME>() {
        Some((near, _)) => zero_in(near),
        None => zero_in(bytes),
    }
}

// The place of the first zero byte.
#[inline(always)]
#[tactic(auto, using(crate::proofs::NearZeros::zero_places))]
fn zero_in(bytes: &[u8]) -> Option<usize>
    ensures { IfSome result (λ at. IsZeroAt bytes.now at) }
{
    for at in 0..bytes.len() {
        if bytes[at] == 0 {
            return Some(at);
        }
    }
    None
}

// What stands behind a zero byte in escaped bytes, with the bytes behind it: 00 ends them, FF makes it a zero byte of them,
// and nothing else may stand there.
#[derive(Clone, Copy)]
pub(crate) enum Escape<'a> {
    End(&'a [u8]),
    Zero(&'a [u8]),
    Neither,
}

// What these bytes begin with, behind a zero byte.
pub(crate) fn after_zero(behind: &[u8]) -> Escape<'_>
    ensures { IsEscape behind.now result }
{
    match behind.split_first() {
        Some((&0, rest)) => Escape::End(rest),
        Some((&0xff, rest)) => Escape::Zero(rest),
        _ => Escape::Neither,
    }
}
