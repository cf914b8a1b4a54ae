//! The collector of a report: it takes ranges of choices, one after the other.

ghost use Rattle.std.specs.Prelude.{◌≡◌, ℕ, ◌≤◌, Bool, length, IfOk, OnErr, OnOk};
ghost use Rattle.lit_paths.specs.Choice.{choices_of};
ghost use Rattle.lit_search.specs.Collected.{Collected, HasTaken, coded_collected};
ghost use Rattle.lit_search.specs.Report.{in_either, in_none, in_range};
ghost use Rattle.lit_search.specs.Internal.Risen.{risen};

use crate::fault::SearchFault;
use crate::found::Found;
use crate::found::examples::Examples;
use crate::searching::record;
use lit_paths::Plan;
use lit_solve::Heartbeat;
use std::alloc::Global;
use std::marker::Model;

/// The report of the choices of a plan taken so far. A clause sees it as a `Collected`.
#[derive(Drop)]
pub struct Collector<'p> {
    alloc: Global,
    plan: &'p Plan<'p>,
    /// Each outcome, with the example that was recorded first.
    table: Examples,
    /// Whether a choice taken has a data race.
    race: bool,
    end: u64,
}

impl<'p> Model for Collector<'p> {
    ghost Value = { Collected };

    ghost coded = { coded_collected };

    ghost view = { λ c. record { test = c.plan.now; end = c.end; report = record { entries = risen c.table; race = c.race } } };
}

impl<'p> Collector<'p> {
    /// A collector that has taken nothing.
    pub fn new(alloc: Global, plan: &'p Plan<'p>) -> Self
        ensures test { result.test ≡ plan.now }
        ensures taken { HasTaken in_none result }
        ensures end { result.end ≡ 0 }
    {
        Collector {
            alloc,
            plan,
            table: Examples::new(alloc),
            race: false,
            end: 0,
        }
    }

    /// The number after the last choice taken, or 0.
    pub fn end(&self) -> u64
        ensures { result ≡ self.now.end }
    {
        self.end
    }

    /// How many choices its plan has.
    pub fn total(&self) -> u64
        ensures { result ≡ length (choices_of self.now.test) }
    {
        self.plan.total()
    }

    /// Takes the choices with numbers from `from` up to and without `to` besides those taken so far, which have lesser numbers: `from` is
    /// at least `end()` and at most `to`, and `to` at most `total()`. Answers `SearchFault::OutOfMemory` where a growth was refused or the
    /// heartbeat ended the search, and no other fault: its test, `end()` and its report are then as before, so that it may take the same
    /// choices again, or others, or give the report. Memory that the call took may stay with it until it is dropped.
    pub fn take<H: Heartbeat>(
        &mut self,
        heartbeat: &H,
        from: u64,
        to: u64,
    ) -> Result<(), SearchFault>
        requires follows { self.old.end ≤ from }
        requires order { from ≤ to }
        requires known { to ≤ length (choices_of self.old.test) }
        ensures test { OnOk result (self.new.test ≡ self.old.test) }
        ensures taken { OnOk result ((taken : ℕ → Bool) → HasTaken taken self.old
            → HasTaken (in_either taken (in_range from to)) self.new) }
        ensures end { OnOk result (self.new.end ≡ to) }
        ensures refused { OnErr result (self.new ≡ self.old) }
    {
        let count = self.table.len();
        match record(
            self.alloc,
            self.plan,
            &mut self.table,
            heartbeat,
            self.race,
            from,
            to,
        ) {
            Ok(race) => {
                self.race = race;
                self.end = to;
                Ok(())
            }
            Err(fault) => {
                // Takes back what the refused call recorded (decision 46).
                self.table.truncate(count);
                Err(fault.into())
            }
        }
    }

    /// The report of the choices taken. Answers `SearchFault::OutOfMemory` where a growth was refused, and no other fault.
    pub fn into_found(self) -> Result<Found, SearchFault>
        ensures { IfOk result (λ found. found ≡ self.entry.report) }
    {
        Ok(Found::new(self.alloc, self.table, self.race)?)
    }
}
