//! Limits of a desk.

/// Places of a desk.
pub const MOST_SEATS: usize = 16;

/// Pieces of a desk: half of the numbers of a word, so that the word that counts draws never overflows (decision 21).
pub const MOST_PIECES: u64 = 1 << 63;
