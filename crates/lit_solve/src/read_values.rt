//! The values that a read can have in a box with independent reads, each with the least sources for it.

ghost use Rattle.std.specs.Prelude.{◌<◌, OnOk, length};
ghost use Rattle.lit_solve.specs.Box.{box_with, events_on};
ghost use Rattle.lit_solve.specs.Internal.Independent.{IsIndependent};
ghost use Rattle.lit_solve.specs.Internal.ReadValues.{AddsFillings, HaveEachValue};

use crate::decided::Decided;
use crate::domains::Domains;
use crate::laws::leaves_are_filled_read_by_read;
use crate::problem::Problem;
use lit_valid::laws::laws_below;
use std::alloc::AllocError;

/// A value that a read can have, and what the least sources that give it this value add to the number of a choice.
#[derive(Clone, Copy, Debug, PartialEq, Eq)]
pub(crate) struct Filling {
    pub(crate) value: u32,
    pub(crate) share: u64,
}

impl Problem<'_> {
    /// Appends each value that a read can have. Its memory may be refused; some values may be missing then.
    pub(crate) fn add_fillings(
        &self,
        domains: &Domains,
        read: u8,
        fillings: &mut Vec<Filling>,
    ) -> Result<(), AllocError>
        requires read { read < length (events_on self.now) }
        requires independent { IsIndependent (box_with self.now domains.now) }
        ensures added { AddsFillings (box_with self.now domains.now) read fillings.old.items fillings.new.items }
        ensures whole { OnOk result (HaveEachValue (box_with self.now domains.now) read fillings.new.items) }
    {
        // For the prover: sources that fill each read are those of a completion, and a completion fills each read.
        laws_below();
        leaves_are_filled_read_by_read();
        let place = match self.read_value(domains, read) {
            Decided::Known(value) => {
                let sources = self.least_filling(domains);
                let share = self.digits_of(sources.as_slice(), read);
                fillings.push(Filling { value, share })?;
                return Ok(());
            }
            Decided::Open(place) => place,
        };
        // For the prover: a combination has few events and few byte reads.
        let _events = self.events();
        let _reads = self.reads();
        let all = domains[place];
        let mut left = all;
        while let Some((source, _others)) = left.split_first() {
            let group = self.storing_same(all, place, source);
            let mut part = *domains;
            if self.restrict_independent(&mut part, place, group) {
                self.add_fillings(&part, read, fillings)?;
            }
            left = left.difference(group);
        }
        Ok(())
    }
}
