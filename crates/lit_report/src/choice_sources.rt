//! The sources of one choice after another. Choices whose numbers are near share their first sources, so only the others are found
//! anew (decision 127).

ghost use Rattle.std.specs.Prelude.{◌≡◌, ◌+◌, ◌<◌, ◌≤◌, length, take};
ghost use Rattle.lit_paths.specs.ByteReads.{byte_reads};
ghost use Rattle.lit_paths.specs.Members.{AreSources};
ghost use Rattle.lit_paths.specs.Numbers.{AreNumbered, IsBegunBy, ways_from};
ghost use Rattle.lit_paths.specs.Plan.{HasSources, IsOfCombination, choices_before, events_in};
ghost use Rattle.lit_report.specs.ChoiceSources.{HoldsSources};

use arrayvec::ArrayVec;
use lit_paths::laws::{choices_are_on_combinations, choices_have_numbers};
use lit_paths::{BYTE_READ_LIMIT, Combination, Sources};

/// The sources of a choice on a combination, or of its first byte reads.
#[derive(Drop)]
pub(crate) struct ChoiceSources {
    pub sources: Sources,
    /// The number of the first choice with the first source, of the first one with the first two, and so on.
    lows: ArrayVec<u64, BYTE_READ_LIMIT>,
}

impl ChoiceSources {
    ghost use Rattle.std.specs.Prelude.{ℕ, IsTrue};
    ghost use Rattle.lit_syntax.specs.Syntax.{Litmus};

    /// No sources.
    pub(crate) fn new() -> Self
        ensures { (t : Litmus) (c : ℕ) → HoldsSources t c result }
    {
        ChoiceSources {
            sources: Sources::new(),
            lows: ArrayVec::new(),
        }
    }

    /// Drops the sources.
    pub(crate) fn forget(&mut self)
        ensures { (t : Litmus) (c : ℕ) → HoldsSources t c self.new }
    {
        self.sources.clear();
        self.lows.clear();
    }

    /// Whether a choice on the combination has the same sources, up to the one at a place.
    fn reaches(&self, combination: &Combination<'_>, place: usize, choice: u64) -> bool
        requires holds { HoldsSources combination.now.0 combination.now.1 self.now }
        requires place { place < length self.now.lows.items }
        ensures { IsTrue result → IsBegunBy combination.now.0 combination.now.1 (take (place + 1) self.now.sources.items) choice }
    {
        let low = self.lows.as_slice()[place];
        low <= choice && choice - low < combination.ways_after(place)
    }

    /// How many of the first sources a choice on the combination has.
    fn shared(&self, combination: &Combination<'_>, choice: u64) -> usize
        requires holds { HoldsSources combination.now.0 combination.now.1 self.now }
        requires low { choices_before combination.now.0 combination.now.1 ≤ choice }
        requires high { choice < choices_before combination.now.0 (combination.now.1 + 1) }
        ensures few { result ≤ length self.now.sources.items }
        ensures begun { IsBegunBy combination.now.0 combination.now.1 (take result self.now.sources.items) choice }
    {
        choices_have_numbers();
        let _first = combination.first();
        let mut place = self.lows.len();
        while place > 0 {
            place -= 1;
            if self.reaches(combination, place, choice) {
                return place + 1;
            }
        }
        0
    }

    /// The number of the first choice on the combination that has these sources.
    fn low(&self, combination: &Combination<'_>) -> u64
        requires { HoldsSources combination.now.0 combination.now.1 self.now }
        ensures { AreNumbered combination.now.0 combination.now.1 self.now.sources.items result
            (ways_from (events_in combination.now.0 combination.now.1) (length self.now.sources.items)) }
    {
        choices_have_numbers();
        match self.lows.as_slice().last() {
            Some(low) => *low,
            None => combination.first(),
        }
    }

    /// Appends the source that a choice with these sources has for the next byte read.
    fn push(&mut self, combination: &Combination<'_>, choice: u64)
        requires holds { HoldsSources combination.now.0 combination.now.1 self.old }
        requires begun { IsBegunBy combination.now.0 combination.now.1 self.old.sources.items choice }
        requires few { length self.old.sources.items < length (byte_reads (events_in combination.now.0 combination.now.1)) }
        ensures holds { HoldsSources combination.now.0 combination.now.1 self.new }
        ensures begun { IsBegunBy combination.now.0 combination.now.1 self.new.sources.items choice }
        ensures one_more { length self.new.sources.items ≡ length self.old.sources.items + 1 }
    {
        choices_have_numbers();
        // For the prover: a combination has few byte reads.
        let _events = combination.events();
        let _first = combination.first();
        let place = self.sources.len();
        let ways = combination.ways_after(place);
        let mut low = self.low(combination);
        let mut digit = 0;
        // It counts up to the digit, since a division takes longer where a byte read has few candidates.
        'digits: while choice - low >= ways {
            low += ways;
            digit += 1;
        }
        let source = combination.candidates(place)[digit];
        self.sources.push(source);
        self.lows.push(low);
    }

    /// Makes them the sources of a choice on the combination.
    pub(crate) fn find(&mut self, combination: &Combination<'_>, choice: u64)
        requires holds { HoldsSources combination.now.0 combination.now.1 self.old }
        requires low { choices_before combination.now.0 combination.now.1 ≤ choice }
        requires high { choice < choices_before combination.now.0 (combination.now.1 + 1) }
        ensures holds { HoldsSources combination.now.0 combination.now.1 self.new }
        ensures listed { HasSources combination.now.0 choice self.new.sources.items }
        ensures of { IsOfCombination combination.now.0 choice combination.now.1 }
        ensures sourced { AreSources (events_in combination.now.0 combination.now.1) self.new.sources.items }
    {
        choices_are_on_combinations();
        let _first = combination.first();
        let shared = self.shared(combination, choice);
        self.sources.truncate(shared);
        self.lows.truncate(shared);
        for _place in shared..combination.byte_reads().len() {
            self.push(combination, choice);
        }
    }
}
