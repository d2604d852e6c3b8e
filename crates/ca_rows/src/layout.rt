//! Where the words of a table stand, and how large its numbers are.

/// How many words a row has. So many stand before the first row, too.
pub const ROW_WORDS: usize = 136;

/// How many words a pass has for itself behind the rows: as many as a line of a processor's cache has. It uses the first two of them alone. Since what is
/// allocated begins at a multiple of 16 bytes, those of two passes lie on two lines, though the eight of one pass may lie on two lines as well.
pub const PASS_WORDS: usize = 8;

/// How many words all passes have, of which there are 64 at most.
pub const PASSES_WORDS: usize = 64 * PASS_WORDS;

/// The number of each row is below this: it has 24 bits.
pub const ROW_LIMIT: u64 = 1 << 24;

/// The last value of the epoch. What a pass announces is one more.
pub const LAST_EPOCH: u64 = 1 << 62;

/// The last value of the tag in the pool's head, which stands above a row's number.
pub const LAST_TAG: u64 = (1 << 40) - 1;

/// The last value of the sequence in a pass's range result, which stands above two bits and a row's number.
pub const LAST_SEQUENCE: u64 = (1 << 38) - 1;
