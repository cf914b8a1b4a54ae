//! The report of a search: outcomes, each with its example, and whether there is a data race.

pub(crate) mod examples;
pub(crate) mod merging;
pub(crate) mod packing;
pub(crate) mod ranking;

ghost use Rattle.std.specs.Prelude.{◌≡◌, ◌<◌, IfOk, length};
ghost use Rattle.lit_search.specs.Report.{entry_at};
ghost use Rattle.lit_search.specs.Internal.Risen.{risen};

use crate::found::examples::Examples;
use crate::found::ranking::{Rank, find, ranked};
use arrayvec::ArrayVec;
use lit_order::Order;
use lit_paths::NAME_LIMIT;
use std::alloc::{AllocError, Global};
use std::marker::Model;

/// The last values of the registers of an outcome, one for each of `Plan::names` and in that order.
pub type Outcome = ArrayVec<u32, NAME_LIMIT>;

/// An execution that shows an outcome. Examples compare by choice, and then by order as a list.
#[derive(Debug, PartialEq, Eq, PartialOrd, Ord, Drop)]
pub struct Example {
    /// The number of its choice, below `Plan::total`.
    pub choice: u64,
    /// Its memory-order: the number of each event of the choice, once.
    pub order: Order,
}

/// The outcomes of a set of choices, rising, each with its example, and whether one of these choices has a data race. A
/// clause sees it as a `Report`.
#[derive(Drop)]
pub struct Found {
    parts: Vec<Examples>,
    /// The order of the outcomes in the parts.
    ranks: Vec<Rank>,
    /// How many outcomes the parts have. These are more than the ranks, if an outcome is in several parts (decision 43).
    count: usize,
    race: bool,
}

impl Model for Found {
    ghost use Rattle.lit_search.specs.Report.{Report};

    ghost Value = { Report };

    ghost use Rattle.lit_search.specs.Found.{report_of};
    ghost use Rattle.lit_search.specs.Internal.Ranks.{IsRanked};

    ghost view = { report_of };

    ghost invariant = { IsRanked };
}

impl Found {
    /// These outcomes, ranked, with their examples, and whether there is a data race.
    pub(crate) fn new(alloc: Global, examples: Examples, race: bool) -> Result<Self, AllocError>
        ensures entries { IfOk result (λ found. found.entries ≡ risen examples) }
        ensures race { IfOk result (λ found. found.race ≡ race) }
    {
        let count = examples.len();
        let mut parts = Vec::with_capacity(alloc, 1)?;
        parts.push(examples)?;
        let ranks = ranked(alloc, parts.as_slice(), count)?;
        Ok(Found {
            parts,
            ranks,
            count,
            race,
        })
    }

    /// Whether some valid execution of these choices has a data race (ECMA-262, 2024, 29.9). It takes no memory.
    pub fn race(&self) -> bool
        ensures { result ≡ self.now.race }
    {
        self.race
    }

    /// How many outcomes there are.
    pub fn len(&self) -> usize
        ensures { result ≡ length self.now.entries }
    {
        self.ranks.len()
    }

    /// The values of an outcome, by its place in the rising order, from 0. The place is below `len()`.
    pub fn outcome(&self, place: usize) -> &[u32]
        requires { place < length self.now.entries }
        ensures { result.now ≡ (entry_at self.now place).outcome }
    {
        let Some((outcome, _)) = find(self.parts.as_slice(), self.ranks[place].place) else {
            unreachable!()
        };
        outcome
    }

    /// The example of an outcome, by its place in the rising order, from 0. The place is below `len()`.
    pub fn example(&self, place: usize) -> &Example
        requires { place < length self.now.entries }
        ensures choice { result.now.choice ≡ (entry_at self.now place).choice }
        ensures order { result.now.order.items ≡ (entry_at self.now place).order }
    {
        let Some((_, example)) = find(self.parts.as_slice(), self.ranks[place].place) else {
            unreachable!()
        };
        example
    }
}
