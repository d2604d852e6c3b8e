//! The words of a space at the start.
ghost use Rattle.ca_rows.specs.Layout.{row_words, pass_words, passes_words};
ghost use Rattle.std.specs.Prelude.{◌≡◌, ◌≢◌, ℕ, ◌+◌, ◌-◌, ◌*◌, ◌<◌, ◌≤◌, length, slice_index, IfOk};
ghost use Rattle.ca_rows.specs.Opening.{AreInBounds, IsOpening};

use crate::layout::{PASS_WORDS, PASSES_WORDS, ROW_LIMIT, ROW_WORDS};
use crate::rule::RowRule;
use crate::sizes::Sizes;
use std::alloc::{AllocError, Global};

// The words at the start.
pub(crate) fn opening<R: RowRule>(alloc: Global, sizes: &Sizes) -> Result<Vec<u64>, AllocError>
    requires { AreInBounds sizes.now }
    ensures { IfOk result (λ words. IsOpening R.opens R.result_word sizes.now words.items) }
{
    let mut words = Vec::from_elem(
        alloc,
        0_u64,
        ROW_WORDS * (sizes.rows as usize + 1) + PASSES_WORDS,
    )?;
    fill::<R>(words.as_mut_slice(), sizes);
    Ok(words)
}

// Fills words that are all 0: the rows from 2 on are chained as free then, each above the next one by number.
fn fill<R: RowRule>(words: &mut [u64], sizes: &Sizes)
    requires bounds { AreInBounds sizes.now }
    requires wide { length words.old ≡ row_words * sizes.now.rows + row_words + passes_words }
    requires zeros { (i : ℕ) → slice_index words.old i ≡ 0 }
    ensures { IsOpening R.opens R.result_word sizes.now words.new }
{
    words[0] = sizes.starts.tag * ROW_LIMIT + 2;
    words[1] = sizes.starts.epoch;
    fill_above::<R>(words, sizes);
    fill_results(words, R::first_result(sizes));
}

// Writes the control words of the rule above the rows, and row 1.
fn fill_above<R: RowRule>(words: &mut [u64], sizes: &Sizes)
    requires bounds { AreInBounds sizes.now }
    requires wide { 272 ≤ length words.old }
    ensures length { length words.new ≡ length words.old }
    ensures above { (i : ℕ) → 2 ≤ i → i < 272 → slice_index words.new i ≡ R.opens sizes.now i }
    ensures below { (i : ℕ) → i < 2 → slice_index words.new i ≡ slice_index words.old i }
    ensures behind { (i : ℕ) → 272 ≤ i → slice_index words.new i ≡ slice_index words.old i }
{
    let mut word = 2_u32;
    while word < 272 {
        words[word as usize] = R::open(sizes, word);
        word += 1;
    }
}

// Writes the word of each pass's ranges.
fn fill_results(words: &mut [u64], value: u64)
    requires wide { 272 + passes_words ≤ length words.old }
    ensures length { length words.new ≡ length words.old }
    ensures results { (pass : ℕ) → pass < 64 → slice_index words.new (length words.old - passes_words + 1 + pass_words * pass) ≡ value }
    ensures others { (i : ℕ) → ((pass : ℕ) → pass < 64 → i ≢ length words.old - passes_words + 1 + pass_words * pass) → slice_index words.new i ≡ slice_index words.old i }
{
    let first = words.len() - PASSES_WORDS + 1;
    let mut pass = 0;
    while pass < 64 {
        words[first + PASS_WORDS * pass] = value;
        pass += 1;
    }
}
