//! Ranks: sorting outcomes without moving them (decision 43).

ghost use Rattle.std.specs.Prelude.{◌≡◌, ◌+◌, ◌<◌, ◌^◌, IfOk, map, slice_get};
ghost use Rattle.std.specs.Cmp.Lexicographic.{slice_cmp};
ghost use Rattle.std.specs.List.{All, IsDistinct};
ghost use Rattle.std.specs.Option.{option_map};
ghost use Rattle.std.specs.Ordering.{nat_cmp};
ghost use Rattle.lit_search.specs.Ranked.{joined_entries, ranked_entry};
ghost use Rattle.lit_search.specs.Internal.Risen.{risen};
ghost use Rattle.lit_search.specs.Internal.Ranks.{AreRanks, are_same, rank_cmp};
ghost use Rattle.lit_search.specs.Internal.Shown.{shown_entry};

use crate::found::Example;
use crate::found::examples::Examples;
use crate::found::packing::{LARGE_COUNT, LARGE_TOP, SMALL_COUNT, SMALL_TOP, packed};
use std::alloc::{AllocError, Global};
use std::cmp::Ordering;

/// A rank: the place of an outcome in the concatenated parts, and the outcome packed, by which most comparisons are decided.
#[derive(Clone, Copy, Debug)]
pub(crate) struct Rank {
    pub large: u128,
    pub small: u64,
    pub place: usize,
}

/// The outcome at a place of parts, and its example.
pub(crate) fn find(parts: &[Examples], place: usize) -> Option<(&[u32], &Example)>
    ensures { option_map (λ p. shown_entry p.0.now p.1.now) result ≡ slice_get (joined_entries parts.now) place }
{
    let mut left = place;
    let mut rest = parts;
    while let Some((part, others)) = rest.split_first() {
        if left < part.len() {
            return part.at(left);
        }
        left -= part.len();
        rest = others;
    }
    None
}

/// The outcome of a rank, or no values if there is no outcome at its place.
fn outcome_of<'a>(parts: &'a [Examples], rank: &Rank) -> &'a [u32]
    ensures { result.now ≡ (ranked_entry (joined_entries parts.now) rank.now).outcome }
{
    match find(parts, rank.place) {
        Some((outcome, _)) => outcome,
        None => &[],
    }
}

/// How the outcomes of ranks compare, value by value. Called only if the packed numbers are equal, and so not inlined.
#[inline(never)]
fn cmp_outcomes(parts: &[Examples], a: &Rank, b: &Rank) -> Ordering
    ensures { result ≡ slice_cmp nat_cmp (ranked_entry (joined_entries parts.now) a.now).outcome
        (ranked_entry (joined_entries parts.now) b.now).outcome }
{
    outcome_of(parts, a).cmp(outcome_of(parts, b))
}

/// How ranks compare: by their small values packed, by their large ones, and then value by value. Those of the parts compare
/// as their outcomes do, and most differ in the first or the second.
#[inline(always)]
pub(crate) fn cmp_ranks(parts: &[Examples], a: &Rank, b: &Rank) -> Ordering
    ensures { result ≡ rank_cmp (joined_entries parts.now) a.now b.now }
{
    match a.small.cmp(&b.small) {
        Ordering::Equal => match a.large.cmp(&b.large) {
            Ordering::Equal => cmp_outcomes(parts, a, b),
            unequal => unequal,
        },
        unequal => unequal,
    }
}

/// The ranks of all outcomes of parts, no two of which are the same, rising by outcome. `count` is the capacity to begin with.
pub(crate) fn ranked(
    alloc: Global,
    parts: &[Examples],
    count: usize,
) -> Result<Vec<Rank>, AllocError>
    requires { IsDistinct are_same (joined_entries parts.now) }
    ensures rising { IfOk result (λ ranks. map (ranked_entry (joined_entries parts.now)) ranks.items ≡ risen (joined_entries parts.now)) }
    ensures ranks { IfOk result (λ ranks. AreRanks (joined_entries parts.now) ranks.items) }
{
    let mut ranks = Vec::with_capacity(alloc, count)?;
    while let Some((outcome, _)) = find(parts, ranks.len()) {
        let rank = Rank {
            large: packed(outcome, LARGE_TOP, LARGE_COUNT),
            small: packed(outcome, SMALL_TOP, SMALL_COUNT) as u64,
            place: ranks.len(),
        };
        ranks.push(rank)?;
    }
    ranks.sort_unstable_by(
        |a: &Rank, b: &Rank| -> Ordering
            ensures { result ≡ rank_cmp (joined_entries parts.entry.now) a.now b.now }
        { cmp_ranks(parts, a, b) },
    );
    Ok(ranks)
}

/// Ranks, once `count` outcomes are put before their parts.
pub(crate) fn all_behind(
    alloc: Global,
    ranks: Vec<Rank>,
    count: usize,
) -> Result<Vec<Rank>, AllocError>
    requires { All (λ rank. rank.place + count < 2 ^ 64) ranks.items }
    ensures { IfOk result
        (λ moved. moved.items ≡ map (λ rank. record { large = rank.large; small = rank.small; place = rank.place + count }) ranks.items) }
{
    let mut moved = Vec::with_capacity(alloc, ranks.len())?;
    for mut rank in ranks {
        rank.place += count;
        moved.push(rank)?;
    }
    Ok(moved)
}
