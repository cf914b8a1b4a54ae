//! The merge of the reports of two sets of choices.

ghost use Rattle.std.specs.Prelude.{◌≡◌, ℕ, ◌+◌, ◌<◌, ◌++◌, ◌||◌, Bool, [], length, map, IfOk, IfNone, IfSome, OnSome};
ghost use Rattle.std.specs.Option.{option_to_list, option_map};
ghost use Rattle.lit_syntax.specs.Syntax.{Litmus};
ghost use Rattle.lit_search.specs.Merge.{IsMerge};
ghost use Rattle.lit_search.specs.Ranked.{joined_entries, ranked_entry};
ghost use Rattle.lit_search.specs.Report.{IsReport, in_either};
ghost use Rattle.lit_search.specs.Internal.Merged.{heads_cmp, lesser as lesser_of, merged};
ghost use Rattle.lit_search.specs.Internal.Ranks.{AreRanks, IsRank};

use crate::fault::SearchFault;
use crate::found::Found;
use crate::found::examples::Examples;
use crate::found::ranking::{Rank, all_behind, cmp_ranks, find};
use std::alloc::{AllocError, Global};
use std::cmp::Ordering;
use std::collections::VecDeque;

/// Of two ranks of the same outcome the one with the lesser example: by choice, and then by order as a list.
fn lesser(parts: &[Examples], a: Rank, b: Rank) -> Rank
    requires first { IsRank (joined_entries parts.now) a }
    requires second { IsRank (joined_entries parts.now) b }
    ensures lesser { ranked_entry (joined_entries parts.now) result
        ≡ lesser_of (ranked_entry (joined_entries parts.now) a) (ranked_entry (joined_entries parts.now) b) }
    ensures rank { IsRank (joined_entries parts.now) result }
{
    let (Some((_, first)), Some((_, second))) = (find(parts, a.place), find(parts, b.place)) else {
        unreachable!()
    };
    match first.cmp(second) {
        Ordering::Greater => b,
        _ => a,
    }
}

/// How the outcomes at the fronts of two lists compare. Where one list has ended, the other's is less.
fn compared(parts: &[Examples], a: &VecDeque<Rank>, b: &VecDeque<Rank>) -> Ordering
    requires first { AreRanks (joined_entries parts.now) a.now.items }
    requires second { AreRanks (joined_entries parts.now) b.now.items }
    ensures { result ≡ heads_cmp (map (ranked_entry (joined_entries parts.now)) a.now.items)
        (map (ranked_entry (joined_entries parts.now)) b.now.items) }
{
    match (a.front(), b.front()) {
        (Some(first), Some(second)) => cmp_ranks(parts, first, second),
        (_, None) => Ordering::Less,
        (None, _) => Ordering::Greater,
    }
}

/// Takes the rank of the least outcome from the fronts of two rising lists. If both fronts have this outcome, it answers the lesser.
fn take_least(parts: &[Examples], a: &mut VecDeque<Rank>, b: &mut VecDeque<Rank>) -> Option<Rank>
    requires first { AreRanks (joined_entries parts.now) a.old.items }
    requires second { AreRanks (joined_entries parts.now) b.old.items }
    ensures taken { merged (map (ranked_entry (joined_entries parts.now)) a.old.items)
        (map (ranked_entry (joined_entries parts.now)) b.old.items)
        ≡ option_to_list (option_map (ranked_entry (joined_entries parts.now)) result)
        ++ merged (map (ranked_entry (joined_entries parts.now)) a.new.items) (map (ranked_entry (joined_entries parts.now)) b.new.items) }
    ensures rank { IfSome result (IsRank (joined_entries parts.now)) }
    ensures first { AreRanks (joined_entries parts.now) a.new.items }
    ensures second { AreRanks (joined_entries parts.now) b.new.items }
    ensures fewer { OnSome result (length a.new.items + length b.new.items < length a.old.items + length b.old.items) }
    ensures end { IfNone result
        (merged (map (ranked_entry (joined_entries parts.now)) a.new.items)
        (map (ranked_entry (joined_entries parts.now)) b.new.items) ≡ []) }
{
    match compared(parts, a, b) {
        Ordering::Less => a.pop_front(),
        Ordering::Greater => b.pop_front(),
        Ordering::Equal => Some(lesser(parts, a.pop_front()?, b.pop_front()?)),
    }
}

/// Two rising lists of ranks, merged: of two ranks of the same outcome the lesser one.
fn merged_ranks(
    alloc: Global,
    parts: &[Examples],
    a: Vec<Rank>,
    b: Vec<Rank>,
) -> Result<Vec<Rank>, AllocError>
    requires first { AreRanks (joined_entries parts.now) a.items }
    requires second { AreRanks (joined_entries parts.now) b.items }
    ensures merged { IfOk result (λ ranks. map (ranked_entry (joined_entries parts.now)) ranks.items
        ≡ merged (map (ranked_entry (joined_entries parts.now)) a.items) (map (ranked_entry (joined_entries parts.now)) b.items)) }
    ensures ranks { IfOk result (λ ranks. AreRanks (joined_entries parts.now) ranks.items) }
{
    let mut ranks = Vec::with_capacity(alloc, a.len().saturating_add(b.len()))?;
    let mut left = VecDeque::from_vec(a);
    let mut right = VecDeque::from_vec(b);
    while let Some(rank) = take_least(parts, &mut left, &mut right) {
        ranks.push(rank)?;
    }
    Ok(ranks)
}

/// The outcomes of both, and whether either has a data race.
fn with_both(alloc: Global, mut a: Found, mut b: Found) -> Result<Found, AllocError>
    ensures { IfOk result (IsMerge a b) }
{
    let race = a.race() | b.race();
    if a.len() == 0 {
        return Ok(Found { race, ..b });
    }
    if b.len() == 0 {
        return Ok(Found { race, ..a });
    }
    // Places are numbered over both: where the sum is no `usize`, memory would have run out before (decision 44).
    let count = a.count.checked_add(b.count).ok_or(AllocError)?;
    let others = all_behind(alloc, b.ranks, a.count)?;
    a.parts.append(&mut b.parts)?;
    let own = a.ranks;
    let ranks = merged_ranks(alloc, a.parts.as_slice(), own, others)?;
    Ok(Found {
        ranks,
        count,
        race,
        ..a
    })
}

/// The outcomes of both, each with the lesser of its examples: by choice, and then by order as a list; and a data race
/// where either has one. The report of two sets of choices is the merge of theirs. Answers `SearchFault::OutOfMemory`
/// where a growth was refused, and no other fault.
pub fn merge(alloc: Global, a: Found, b: Found) -> Result<Found, SearchFault>
    ensures merged { IfOk result (IsMerge a b) }
    ensures reported { IfOk result (λ found. (t : Litmus) (some others : ℕ → Bool) → IsReport t some a → IsReport t others b
        → IsReport t (in_either some others) found) }
{
    Ok(with_both(alloc, a, b)?)
}
