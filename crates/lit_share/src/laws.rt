//! The law of pieces. The function does nothing: its contract is a theorem.

ghost use Rattle.std.specs.Prelude.{◌≡◌, ℕ, ◌<◌, IsTrue};
ghost use Rattle.lit_share.specs.Pieces.{pieces_of, in_piece};

/// The pieces of a cutting have each number below the total, once, and no other.
pub fn pieces_cover_once()
    ensures all { (total cut n : ℕ) → 0 < cut → n < total → (i : ℕ) × (i < pieces_of total cut) × IsTrue (in_piece total cut i n) }
    ensures once { (total cut i j n : ℕ) → IsTrue (in_piece total cut i n) → IsTrue (in_piece total cut j n) → i ≡ j }
    ensures below { (total cut i n : ℕ) → IsTrue (in_piece total cut i n) → n < total }
{}
