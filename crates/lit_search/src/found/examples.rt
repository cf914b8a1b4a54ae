//! The table that a search records into: outcomes with their examples, in the order of recording.

ghost use Rattle.std.specs.Prelude.{◌≡◌, [], length, slice_get, take};
ghost use Rattle.std.specs.List.{IsDistinct};
ghost use Rattle.std.specs.Option.{option_map};

use crate::found::Example;
use indexmap::IndexMap;
use lit_order::Order;
use lit_solve::OutcomeTable;
use std::alloc::{AllocError, Global};
use std::boxed::BoxedSlice;
use std::marker::Model;

/// Outcomes, each once and with its example, in the order in which they were recorded (decision 42). A clause sees it as a list
/// of entries.
#[derive(Drop)]
pub(crate) struct Examples {
    alloc: Global,
    by_outcome: IndexMap<BoxedSlice<u32>, Example>,
}

impl Model for Examples {
    ghost use Rattle.std.specs.Prelude.{List};
    ghost use Rattle.lit_search.specs.Report.{Entry};
    ghost use Rattle.lit_search.specs.Examples.{entries_in};

    ghost Value = { List Entry };

    ghost view = { entries_in };
}

impl Examples {
    ghost use Rattle.lit_search.specs.Internal.Ranks.{are_same};
    ghost use Rattle.lit_search.specs.Internal.Shown.{shown_entry};

    /// None yet.
    pub(crate) fn new(alloc: Global) -> Self
        ensures { result ≡ [] }
    {
        Examples {
            alloc,
            by_outcome: IndexMap::new(alloc),
        }
    }

    /// How many there are.
    pub(crate) fn len(&self) -> usize
        ensures len { result ≡ length self.now }
        ensures distinct { IsDistinct are_same self.now }
    {
        self.by_outcome.len()
    }

    /// The outcome at a place, from 0, and its example.
    pub(crate) fn at(&self, place: usize) -> Option<(&[u32], &Example)>
        ensures { option_map (λ p. shown_entry p.0.now p.1.now) result ≡ slice_get self.now place }
    {
        let (outcome, example) = self.by_outcome.get_index(place)?;
        Some((&**outcome, example))
    }

    /// Retains the first `len` outcomes, and drops the others.
    pub(crate) fn truncate(&mut self, len: usize)
        ensures { self.new ≡ take len self.old }
    {
        self.by_outcome.truncate(len);
    }
}

impl OutcomeTable for Examples {
    ghost entries = { λ examples. examples };

    fn has(&self, outcome: &[u32]) -> bool {
        self.by_outcome.contains_key(outcome)
    }

    fn record(&mut self, outcome: &[u32], choice: u64, order: Order) -> Result<(), AllocError> {
        let outcome = BoxedSlice::from_slice(self.alloc, outcome)?;
        self.by_outcome.insert(outcome, Example { choice, order })?;
        Ok(())
    }
}
