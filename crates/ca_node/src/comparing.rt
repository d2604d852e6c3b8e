//! How the key of a route that was shown stands to another key.
ghost use Rattle.std.specs.Prelude.{◌≡◌, ℕ, ◌<◌, ◌≤◌, List, take, slice_index, length as list_length};
ghost use Rattle.std.specs.Int.{to_be_bytes, w64};
ghost use Rattle.ca_model.specs.StoreMap.{bytes_cmp};
ghost use Rattle.ca_node.specs.Row.{count, route_key};
ghost use Rattle.ca_node.specs.Walking.{AreAlikeUpTo, BeginsWith, IsRouteShown};
ghost use Rattle.ca_rows.specs.Passes.{OnlyReads, IsReading, sizes};
ghost use Rattle.ca_node.specs.TreePasses.{tree_of};

use crate::layout::{COUNT_LIMIT, KEY};
use crate::rule::{TreePass, TreeSpace};
use crate::steps::load_word;
use std::cmp::Ordering;

// How the key of a route that the pass was shown stands to this key, of which the first eight bytes were made a word before. They are compared as
// numbers, eight bytes at a time. It loads no word behind the first difference.
#[inline(always)]
pub(crate) fn compare(
    space: &TreeSpace,
    pass: &mut TreePass,
    route: u32,
    key: &[u8],
    front: u64,
) -> Ordering
    requires reading { IsReading space.now pass.old }
    requires inside { route ≤ (sizes space.now).rows }
    requires shown { (its : List ℕ) × IsRouteShown (tree_of pass.old) route its }
    requires front { BeginsWith key.now front }
    ensures frame { OnlyReads pass.old pass.new }
    ensures order { (its : List ℕ) → IsRouteShown (tree_of pass.old) route its → result ≡ bytes_cmp (route_key its) key.now }
{
    let len = (load_word(space, pass, route, 0) % COUNT_LIMIT) as usize;
    let stop = len.min(key.len());
    if stop == 0 {
        return len.cmp(&key.len());
    }
    let word = load_word(space, pass, route, KEY);
    let order = compare_tops(word, front, stop.min(8));
    if order.is_ne() {
        return order;
    }
    if stop <= 8 {
        return len.cmp(&key.len());
    }
    compare_rest(space, pass, route, key, len)
}

// How the key of such a route, which has so many bytes, stands to this key, where both begin with the same eight bytes and have more.
fn compare_rest(
    space: &TreeSpace,
    pass: &mut TreePass,
    route: u32,
    key: &[u8],
    len: usize,
) -> Ordering
    requires reading { IsReading space.now pass.old }
    requires inside { route ≤ (sizes space.now).rows }
    requires shown { (its : List ℕ) × IsRouteShown (tree_of pass.old) route its }
    requires len { (its : List ℕ) → IsRouteShown (tree_of pass.old) route its → len ≡ count its }
    requires more { (8 < len) × (8 < list_length key.now) }
    requires alike { (its : List ℕ) → IsRouteShown (tree_of pass.old) route its → AreAlikeUpTo 8 (route_key its) key.now }
    ensures frame { OnlyReads pass.old pass.new }
    ensures order { (its : List ℕ) → IsRouteShown (tree_of pass.old) route its → result ≡ bytes_cmp (route_key its) key.now }
{
    let stop = len.min(key.len());
    for place in 1..stop.div_ceil(8) {
        let word = load_word(space, pass, route, KEY + place as u32);
        let other = top_of(&key[8 * place..]);
        let count = (stop - 8 * place).min(8);
        let order = compare_tops(word, other, count);
        if order.is_ne() {
            return order;
        }
    }
    len.cmp(&key.len())
}

/// The first eight bytes as a word, the highest first, with zeros behind their end.
pub fn top_of(bytes: &[u8]) -> u64
    ensures front { BeginsWith bytes.now result }
    ensures zeros { (k : ℕ) → list_length bytes.now ≤ k → slice_index (to_be_bytes w64 result) k ≡ 0 }
{
    if bytes.is_empty() {
        return 0;
    }
    let mut eight = [0; 8];
    if bytes.len() < 8 {
        eight[..bytes.len()].copy_from_slice(bytes);
        return u64::from_be_bytes(eight);
    }
    eight.copy_from_slice(&bytes[..8]);
    u64::from_be_bytes(eight)
}

/// How the first bytes of two words stand, so many of each, from 1 to 8; a word's highest byte is its first one.
pub fn compare_tops(word: u64, other: u64, count: usize) -> Ordering
    requires { (0 < count) × (count ≤ 8) }
    ensures { result ≡ bytes_cmp (take count (to_be_bytes w64 word)) (take count (to_be_bytes w64 other)) }
{
    let behind = 64 - 8 * count;
    (word >> behind).cmp(&(other >> behind))
}
