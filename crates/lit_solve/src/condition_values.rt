//! The value of a condition in three-valued logic, by the domains of a box: true, false, or undecided.

ghost use Rattle.std.specs.Prelude.{◌≡◌, ◌⊎◌, ◌↔◌, ℕ, ◌^◌, ◌<◌, IfSome, IsTrue, length, true};
ghost use Rattle.lit_syntax.specs.Litmus.{condition_of};
ghost use Rattle.lit_syntax.specs.Syntax.{Is};
ghost use Rattle.lit_paths.specs.ByteReads.{byte_reads};
ghost use Rattle.lit_paths.specs.Event.{does_read, event_at as event_of};
ghost use Rattle.lit_rel.specs.EventSet.{HasEvent};
ghost use Rattle.lit_valid.specs.PartOutcome.{observed_read as read_of};
ghost use Rattle.lit_solve.specs.Box.{HasSource, IsBox, box_with, events_on};
ghost use Rattle.lit_solve.specs.Prospect.{IsOutcomeProspect};
ghost use Rattle.lit_solve.specs.Internal.ConditionValues.{IsByteDecided, IsDecided, IsReadDecided, stored_for};

use crate::decided::Decided;
use crate::domains::Domains;
use crate::filling::storing;
use crate::problem::Problem;
use lit_paths::event_at;
use lit_rel::EventSet;
use lit_syntax::{Cond, REGISTERS};
use lit_valid::Class;
use lit_valid::laws::laws_below;

/// Whether a number fits into so many bytes: one, two or four.
fn fits(value: u32, size: u8) -> bool
    requires { (size ≡ 1) ⊎ ((size ≡ 2) ⊎ (size ≡ 4)) }
    ensures { IsTrue result ↔ (value < 256 ^ size) }
{
    match size {
        1 => value < 0x100,
        2 => value < 0x1_0000,
        _ => true,
    }
}

impl Problem<'_> {
    /// The sources in the domain of the byte read at a place that store this byte for it.
    fn storing(&self, domains: &Domains, place: usize, value: u8) -> EventSet
        requires place { place < length (byte_reads (events_on self.now)) }
        requires is_box { IsBox (box_with self.now domains.now) }
        ensures { (w : ℕ) → HasEvent result w ↔ (HasSource (box_with self.now domains.now) place w
            × (stored_for (box_with self.now domains.now) place w ≡ value)) }
    {
        let byte = self.byte_read(place).byte;
        storing(self.events(), domains[place], byte, value)
    }

    /// Whether the byte read at a place reads this byte, by the sources in its domain.
    fn byte_is(&self, domains: &Domains, place: usize, value: u8) -> Decided<bool>
        requires place { place < length (byte_reads (events_on self.now)) }
        requires is_box { IsBox (box_with self.now domains.now) }
        ensures { IsByteDecided (box_with self.now domains.now) place value result }
    {
        // For the prover: the domain has events of the combination alone.
        let _events = self.events();
        let storing = self.storing(domains, place, value);
        let Some(_some) = storing.split_first() else {
            return Decided::Known(false);
        };
        let Some(_other) = domains[place].difference(storing).split_first() else {
            return Decided::Known(true);
        };
        Decided::Open(place)
    }

    /// Whether a read has a value, by the sources in the domains of its bytes.
    fn read_is(&self, domains: &Domains, read: usize, value: u32) -> Decided<bool>
        requires known { read < length (events_on self.now) }
        requires reads { IsTrue (does_read (event_of (events_on self.now) read).kind) }
        requires is_box { IsBox (box_with self.now domains.now) }
        ensures { IsReadDecided (box_with self.now domains.now) read value result }
    {
        // For the prover: a byte read is a byte in the range of its read.
        laws_below();
        let event = event_at(self.events(), read);
        // A number with more bytes than the read is never its value, whatever its low bytes are.
        if !fits(value, event.size) {
            return Decided::Known(false);
        }
        let bytes = value.to_le_bytes();
        let mut decided = Decided::Known(true);
        for place in 0..self.reads() {
            let at = self.byte_read(place);
            if usize::from(at.read) == read {
                match self.byte_is(domains, place, bytes[usize::from(at.byte - event.first)]) {
                    Decided::Known(true) => {}
                    // One byte that can't be that of the number decides, even if others are undecided (decision 29).
                    Decided::Known(false) => return Decided::Known(false),
                    Decided::Open(open) => decided = Decided::Open(open),
                }
            }
        }
        decided
    }

    /// The number of the read that a register of an agent observes at the end of the agent's path; `None` if it was not written.
    pub(crate) fn observed_read(&self, agent: u8, reg: u8) -> Option<usize>
        ensures value { result ≡ read_of self.now.0 self.now.1 (agent, reg) }
        ensures reads { IfSome result (λ r. (r < length (events_on self.now))
            × IsTrue (does_read (event_of (events_on self.now) r).kind)) }
    {
        let agent = usize::from(agent);
        if agent >= self.combination.test().agents() || usize::from(reg) >= REGISTERS {
            return None;
        }
        let place = self.combination.path(agent).last(reg)?;
        Some(usize::from(self.combination.first_event(agent)) + usize::from(place))
    }

    /// Whether a register has a value in the outcome by any sources that lie in the box.
    fn register_is(&self, domains: &Domains, agent: u8, reg: u8, value: u32) -> Decided<bool>
        requires { IsBox (box_with self.now domains.now) }
        ensures { IsDecided (box_with self.now domains.now) (Is agent reg true value) result }
    {
        // For the prover: an execution's outcome follows from its sources.
        laws_below();
        match self.observed_read(agent, reg) {
            Some(read) => self.read_is(domains, read, value),
            None => Decided::Known(value == 0),
        }
    }

    /// The value of a condition, by the domains of the byte reads that its registers observe.
    pub(crate) fn decide(&self, domains: &Domains, condition: &Cond) -> Decided<bool>
        requires { IsBox (box_with self.now domains.now) }
        ensures { IsDecided (box_with self.now domains.now) (condition_of condition.now) result }
    {
        match condition {
            Cond::Any(members) => {
                let mut decided = Decided::Known(false);
                'any: for member in members {
                    match self.decide(domains, member) {
                        Decided::Known(true) => return Decided::Known(true),
                        Decided::Known(false) => {}
                        Decided::Open(place) => decided = Decided::Open(place),
                    }
                }
                decided
            }
            Cond::All(members) => {
                let mut decided = Decided::Known(true);
                'all: for member in members {
                    match self.decide(domains, member) {
                        Decided::Known(false) => return Decided::Known(false),
                        Decided::Known(true) => {}
                        Decided::Open(place) => decided = Decided::Open(place),
                    }
                }
                decided
            }
            Cond::Not(member) => self.decide(domains, member).opposite(),
            Cond::Is {
                agent,
                reg,
                equal,
                value,
            } => {
                let decided = self.register_is(domains, *agent, *reg, *value);
                if *equal { decided } else { decided.opposite() }
            }
        }
    }

    /// Whether outcomes are in a class, by all sources in the domains of a box, whether an execution with these is valid or not.
    pub fn prospect_of(&self, domains: &Domains, class: Class) -> Decided<bool>
        requires { IsBox (box_with self.now domains.now) }
        ensures { IsOutcomeProspect (box_with self.now domains.now) class result }
    {
        let met = self.decide(domains, self.combination.test().check());
        match class {
            Class::Met => met,
            Class::Unmet => met.opposite(),
        }
    }
}
