//! The outcomes of a box with independent reads, as a product: each observed read has one of its values, whatever the others have.

ghost use Rattle.std.specs.Prelude.{◌≡◌, ◌↔◌, ℕ, ◌<◌, IsTrue, OnOk, Some, [], length, slice_get, slice_index_or};
ghost use Rattle.lit_valid.specs.Entry.{HasOutcome};
ghost use Rattle.lit_solve.specs.Box.{box_with, events_on};
ghost use Rattle.lit_solve.specs.Internal.Independent.{IsLeastOrderOfEach, IsIndependent};
ghost use Rattle.lit_solve.specs.Internal.Product.{AreOpenReads, AreValuesBeside, ChangesListed, HasEachBeside};
ghost use Rattle.lit_solve.specs.Internal.Product.{IsChosen, IsListed, Observes};
ghost use Rattle.lit_solve.specs.Outcomes.{AddsEntries, HasEachOutcome};

use crate::decided::Decided;
use crate::domains::Domains;
use crate::heartbeat::Heartbeat;
use crate::laws::leaves_are_filled_read_by_read;
use crate::numbering::first_of;
use crate::observation::Values;
use crate::problem::Problem;
use crate::read_values::Filling;
use crate::table::OutcomeTable;
use arrayvec::ArrayVec;
use lit_order::Order;
use lit_paths::NAME_LIMIT;
use lit_valid::laws::laws_below;
use std::alloc::{AllocError, Global};

/// Registers, as places of an outcome.
pub(crate) type Places = ArrayVec<u8, NAME_LIMIT>;

/// An observed read whose value is open.
#[derive(Drop)]
pub(crate) struct OpenRead {
    /// Its event number.
    pub(crate) read: u8,
    /// The registers that observe it.
    pub(crate) registers: Places,
    /// Each value that it can have.
    pub(crate) fillings: Vec<Filling>,
}

/// Sets the values of some registers.
fn set_values(values: &mut Values, registers: &Places, value: u32)
    requires { (i j : ℕ) → slice_get registers.now.items i ≡ Some j → j < length values.old.items }
    ensures long { length values.new.items ≡ length values.old.items }
    ensures own { (i j : ℕ) → slice_get registers.now.items i ≡ Some j → slice_index_or values.new.items j 0 ≡ value }
    ensures others { (j : ℕ) → ¬ ((i : ℕ) × (slice_get registers.now.items i ≡ Some j))
        → slice_index_or values.new.items j 0 ≡ slice_index_or values.old.items j 0 }
{
    for i in 0..registers.len() {
        values[usize::from(registers[i])] = value;
    }
}

/// Whether a read is one of these.
pub(crate) fn is_listed(reads: &[OpenRead], read: u8) -> bool
    ensures { IsTrue result ↔ IsListed reads.now read }
{
    for i in 0..reads.len() {
        if reads[i].read == read {
            return true;
        }
    }
    false
}

impl Problem<'_> {
    /// The registers that observe a read.
    fn registers_of(&self, read: u8) -> Places
        ensures { (j : ℕ) → ((i : ℕ) × (slice_get result.items i ≡ Some j)) ↔ Observes self.now read j }
    {
        let mut places = Places::new();
        for i in 0..self.names.len() {
            let name = self.names[i];
            if let Some(observed) = self.observed_read(name.0, name.1) {
                if observed == usize::from(read) {
                    places.push(i as u8);
                }
            }
        }
        places
    }

    /// Lists a read with the registers that observe it and its values.
    fn list_read(
        &self,
        alloc: Global,
        domains: &Domains,
        read: u8,
        reads: &mut Vec<OpenRead>,
    ) -> Result<(), AllocError>
        requires known { read < length (events_on self.now) }
        requires observed { (j : ℕ) × Observes self.now read j }
        requires independent { IsIndependent (box_with self.now domains.now) }
        requires reads { AreOpenReads (box_with self.now domains.now) reads.old.items }
        requires new { ¬ IsListed reads.old.items read }
        ensures listed { OnOk result (IsListed reads.new.items read) }
        ensures stays { OnOk result ((r : ℕ) → IsListed reads.old.items r → IsListed reads.new.items r) }
        ensures reads { OnOk result (AreOpenReads (box_with self.now domains.now) reads.new.items) }
    {
        let mut fillings = Vec::new(alloc);
        self.add_fillings(domains, read, &mut fillings)?;
        // Outcomes are then recorded in rising order, and to sort them takes little time (decision 124).
        fillings.sort_unstable_by_key(|filling: &Filling| -> u32 { filling.value });
        let registers = self.registers_of(read);
        reads.push(OpenRead {
            read,
            registers,
            fillings,
        })?;
        Ok(())
    }

    /// Lists the observed reads whose values are open, and appends the value of each other register. Of registers that observe a listed
    /// read it appends 0.
    fn open_reads(
        &self,
        alloc: Global,
        domains: &Domains,
        reads: &mut Vec<OpenRead>,
        values: &mut Values,
    ) -> Result<(), AllocError>
        requires independent { IsIndependent (box_with self.now domains.now) }
        requires reads { reads.old.items ≡ [] }
        requires values { values.old.items ≡ [] }
        ensures reads { OnOk result (AreOpenReads (box_with self.now domains.now) reads.new.items) }
        ensures values { OnOk result (AreValuesBeside (box_with self.now domains.now) reads.new.items values.new.items) }
    {
        // For the prover: an execution's outcome follows from its sources, and event numbers are small.
        laws_below();
        let _events = self.events();
        for i in 0..self.names.len() {
            let name = self.names[i];
            let mut value = 0;
            if let Some(read) = self.observed_read(name.0, name.1) {
                let read = read as u8;
                if !is_listed(reads.as_slice(), read) {
                    match self.read_value(domains, read) {
                        Decided::Known(one) => value = one,
                        Decided::Open(_) => self.list_read(alloc, domains, read, reads)?,
                    }
                }
            }
            values.push(value);
        }
        Ok(())
    }

    /// Records the outcomes that the table lacks of the completions that have these values beside the listed reads. It overwrites the
    /// values of registers that observe a listed read. `number` is that of the choice that each of these reads adds its share to.
    fn product<T: OutcomeTable, H: Heartbeat>(
        &self,
        domains: &Domains,
        reads: &[OpenRead],
        values: &mut Values,
        number: u64,
        order: &Order,
        table: &mut T,
        heartbeat: &H,
    ) -> Result<(), AllocError>
        requires independent { IsIndependent (box_with self.now domains.now) }
        requires reads { AreOpenReads (box_with self.now domains.now) reads.now }
        requires chosen { IsChosen (box_with self.now domains.now) reads.now values.old.items number }
        requires order { IsLeastOrderOfEach (box_with self.now domains.now) order.now.items }
        ensures values { ChangesListed self.now reads.now values.old.items values.new.items }
        ensures added { AddsEntries (box_with self.now domains.now) (T.entries table.old) (T.entries table.new) }
        ensures whole { OnOk result (HasEachBeside (box_with self.now domains.now) reads.now values.old.items (T.entries table.new)) }
    {
        // For the prover: an execution's outcome follows from its sources, a completion fills each read, and numbers are small.
        laws_below();
        leaves_are_filled_read_by_read();
        let _first = first_of(&self.combination);
        heartbeat.product_beat()?;
        let Some((first, rest)) = reads.split_first() else {
            let outcome = values.as_slice();
            if table.has(outcome) {
                return Ok(());
            }
            let order = order.clone()?;
            table.record(outcome, number, order)?;
            return Ok(());
        };
        for i in 0..first.fillings.len() {
            let filling = first.fillings[i];
            set_values(values, &first.registers, filling.value);
            let next = number + filling.share;
            self.product(domains, rest, values, next, order, table, heartbeat)?;
        }
        Ok(())
    }

    /// Records the outcomes of a box that the table lacks. `order` is the least memory-order of what it gives. The memory for the reads
    /// and their values is taken from `alloc`.
    pub(crate) fn product_outcomes<T: OutcomeTable, H: Heartbeat>(
        &self,
        alloc: Global,
        domains: &Domains,
        order: &Order,
        table: &mut T,
        heartbeat: &H,
    ) -> Result<(), AllocError>
        requires independent { IsIndependent (box_with self.now domains.now) }
        requires order { IsLeastOrderOfEach (box_with self.now domains.now) order.now.items }
        ensures added { AddsEntries (box_with self.now domains.now) (T.entries table.old) (T.entries table.new) }
        ensures whole { OnOk result (HasEachOutcome (box_with self.now domains.now) (T.entries table.new)) }
    {
        // For the prover: an execution's outcome follows from its sources, and a completion fills each read.
        laws_below();
        leaves_are_filled_read_by_read();
        let mut reads = Vec::new(alloc);
        let mut values = Values::new();
        self.open_reads(alloc, domains, &mut reads, &mut values)?;
        let reads = reads.as_slice();
        let least = self.least_filling(domains);
        // The reads that no outcome tells apart add to the number once, not for each outcome.
        let number = self.number_without(least.as_slice(), reads);
        self.product(domains, reads, &mut values, number, order, table, heartbeat)
    }
}
