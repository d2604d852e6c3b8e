//! Numbers without pattern: the same ones in each program that is timed beside this one.
use std::alloc::{AllocError, Global};

/// An order of numbers.
#[derive(Clone, Copy)]
pub struct Draws {
    last: u32,
}

impl Draws {
    /// Orders of other numbers, from 1 on, differ.
    pub fn new(number: u32) -> Draws {
        Draws { last: number }
    }

    /// The next number.
    pub fn draw(&mut self) -> u32 {
        let next = u64::from(self.last).wrapping_mul(16_807) % 2_147_483_647;
        self.last = next as u32;
        self.last
    }
}

/// A number below the count, all of which come as often.
pub fn even(drawn: u32, count: u32) -> u32 {
    drawn / 16 % count.max(1)
}

/// A number below the count, of which small ones come far more often: those below `k` in about (`k` / count) ^ 1/4 of all draws.
pub fn skewed(drawn: u32, count: u32) -> u32 {
    let count = u64::from(count.max(1));
    let number = u64::from(drawn / 16) % count;
    let square = number.wrapping_mul(number) / count;
    let fourth = square.wrapping_mul(square) / count;
    (fourth % count) as u32
}

/// The numbers below the count in an order without pattern.
pub fn shuffled(alloc: Global, count: u32) -> Result<Vec<u32>, AllocError> {
    let mut numbers = Vec::new(alloc);
    let mut draws = Draws::new(1);
    for number in 0..count {
        numbers.push(number)?;
        let other = even(draws.draw(), number.saturating_add(1));
        exchange(numbers.as_mut_slice(), number as usize, other as usize);
    }
    Ok(numbers)
}

// Exchanges the numbers at two places, where there are such.
fn exchange(numbers: &mut [u32], place: usize, other: usize) {
    if place < numbers.len() && other < numbers.len() {
        numbers.swap(place, other);
    }
}
