//! The number of a choice, from its sources: a sum of digits, one for each byte read.

ghost use Rattle.std.specs.Prelude.{◌≡◌, ℕ, ◌+◌, ◌<◌, ◌≤◌, Some, length, slice_get, slice_index_or};
ghost use Rattle.lit_paths.specs.ByteReads.{byte_reads};
ghost use Rattle.lit_paths.specs.Choice.{combinations_of};
ghost use Rattle.lit_paths.specs.Members.{AreSources};
ghost use Rattle.lit_paths.specs.declared.limits.TheConstants.{CHOICE_LIMIT};
ghost use Rattle.lit_paths.specs.Numbers.{NumbersChoices};
ghost use Rattle.lit_paths.specs.Plan.{HasSources, IsOfCombination, choices_before, events_in};
ghost use Rattle.lit_solve.specs.Internal.Numbering.{digit, digits_below, place_in, share_below};
ghost use Rattle.lit_solve.specs.Box.{events_on};
ghost use Rattle.lit_solve.specs.Internal.Product.{AreDistinct, IsNumberWithout};

use crate::problem::Problem;
use crate::product::{OpenRead, is_listed};
use lit_paths::Combination;
use lit_paths::laws::{choices_are_on_combinations, choices_have_numbers};

/// The first place of an event in a list that has it.
fn place_of(events: &[u8], event: u8) -> usize
    requires { (k : ℕ) × (slice_get events.now k ≡ Some event) }
    ensures value { result ≡ place_in events.now event }
    ensures at { slice_get events.now result ≡ Some event }
{
    for (place, other) in events.iter().enumerate() {
        if *other == event {
            return place;
        }
    }
    unreachable!()
}

/// The number of the first choice on a combination. The clauses are for the prover: the combination is one of the test, and its choices
/// have the numbers from this one on, which are small.
pub(crate) fn first_of(combination: &Combination<'_>) -> u64
    ensures value { result ≡ choices_before combination.now.0 combination.now.1 }
    ensures known { combination.now.1 < length (combinations_of combination.now.0) }
    ensures numbers { NumbersChoices combination.now.0 combination.now.1 }
    ensures of { (n : ℕ) → choices_before combination.now.0 combination.now.1 ≤ n
        → n < choices_before combination.now.0 (combination.now.1 + 1) → IsOfCombination combination.now.0 n combination.now.1 }
    ensures few { choices_before combination.now.0 (combination.now.1 + 1) ≤ CHOICE_LIMIT }
{
    choices_have_numbers();
    choices_are_on_combinations();
    let _end = combination.end();
    combination.first()
}

/// The digit of a byte read: how many choices have an earlier candidate than its source, and the same sources before it.
fn digit_of(combination: &Combination<'_>, sources: &[u8], place: usize) -> u64
    requires sources { AreSources (events_in combination.now.0 combination.now.1) sources.now }
    requires place { place < length sources.now }
    ensures value { result ≡ digit (events_in combination.now.0 combination.now.1) place (slice_index_or sources.now place 0) }
    ensures few { choices_before combination.now.0 combination.now.1
        + digits_below (events_in combination.now.0 combination.now.1) sources.now place + result ≤ CHOICE_LIMIT }
{
    // For the prover: no sum overflows, since no choice has a number over the limit.
    let _first = first_of(combination);
    let index = place_of(combination.candidates(place), sources[place]);
    index as u64 * combination.ways_after(place)
}

/// The number of the choice on the combination that has these sources, a candidate for each byte read.
pub fn number_of(combination: &Combination<'_>, sources: &[u8]) -> u64
    requires { AreSources (events_in combination.now.0 combination.now.1) sources.now }
    ensures low { choices_before combination.now.0 combination.now.1 ≤ result }
    ensures high { result < choices_before combination.now.0 (combination.now.1 + 1) }
    ensures has { HasSources combination.now.0 result sources.now }
{
    let mut number = first_of(combination);
    for place in 0..sources.len() {
        number += digit_of(combination, sources, place);
    }
    number
}

impl Problem<'_> {
    /// The digits of a read, added up.
    pub(crate) fn digits_of(&self, sources: &[u8], read: u8) -> u64
        requires { AreSources (events_on self.now) sources.now }
        ensures { result ≡ share_below (events_on self.now) read sources.now (length (byte_reads (events_on self.now))) }
    {
        let mut share = 0;
        for place in 0..self.reads() {
            if self.byte_read(place).read == read {
                share += digit_of(&self.combination, sources, place);
            }
        }
        share
    }

    /// The number of the choice with these sources, less the digits of the listed reads, no two of which are the same.
    pub(crate) fn number_without(&self, sources: &[u8], reads: &[OpenRead]) -> u64
        requires sources { AreSources (events_on self.now) sources.now }
        requires distinct { AreDistinct reads.now }
        ensures { IsNumberWithout self.now reads.now sources.now result }
    {
        let mut number = first_of(&self.combination);
        for place in 0..self.reads() {
            if !is_listed(reads, self.byte_read(place).read) {
                number += digit_of(&self.combination, sources, place);
            }
        }
        number
    }
}
