//! A path of an agent, with its guards on the values that are read on it.

pub(crate) mod counting;
pub(crate) mod makers;
pub(crate) mod walking;

ghost use Rattle.std.specs.Prelude.{◌≡◌, ◌<◌, length, Some, None, IfOk, slice_index_or};
ghost use Rattle.lit_syntax.specs.declared.limits.TheConstants.{REGISTERS as REGISTER_COUNT};
ghost use Rattle.lit_paths.specs.declared.limits.TheConstants.{ACCESS_LIMIT as ACCESSES};
ghost use Rattle.lit_paths.specs.Internal.PathSteps.{empty_path, with_access, with_read, with_guard};

use crate::event::Event;
use crate::limits::ACCESS_LIMIT;
use arrayvec::ArrayVec;
use lit_syntax::REGISTERS;
use std::alloc::{AllocError, Global};
use std::marker::Model;

/// A guard: what one decision of a path asks of a value.
#[derive(Clone, Copy, Debug, PartialEq, Eq)]
pub struct Tested {
    /// The place, from 0 in the path's event list, of the read whose value the guard asks about; `None` for a register
    /// that was not written, which holds 0.
    pub on: Option<u8>,
    /// Whether the value has to equal the number, or to differ from it.
    pub equal: bool,
    /// The number.
    pub value: u32,
}

/// A path of an agent through its text: the events on it, the guards of its decisions, and the reads that its registers
/// hold at the end. A clause sees it as a `PathModel`.
#[derive(Drop)]
pub struct Path {
    events: ArrayVec<Event, ACCESS_LIMIT>,
    tests: Vec<Tested>,
    last: [Option<u8>; REGISTERS],
}

impl Model for Path {
    ghost use Rattle.lit_paths.specs.PathModel.{PathModel};

    ghost Value = { PathModel };

    ghost view = { λ p. record { events = p.events.items; tests = p.tests.items; last = p.last } };
}

impl Path {
    /// A path before its first step.
    pub(crate) fn new(alloc: Global) -> Path
        ensures { result ≡ empty_path }
    {
        Path {
            events: ArrayVec::new(),
            tests: Vec::new(alloc),
            last: [None; REGISTERS],
        }
    }

    /// The events on the path, by their places: at most `ACCESS_LIMIT`.
    pub fn events(&self) -> &[Event]
        ensures { result.now ≡ self.now.events }
    {
        self.events.as_slice()
    }

    /// The guards of the path: one for each `if` and compareExchange on it, in order.
    pub fn tests(&self) -> &[Tested]
        ensures { result.now ≡ self.now.tests }
    {
        self.tests.as_slice()
    }

    /// The place of the read that a register, `r0` up to `r7` by its number, holds at the end, or `None` where it was
    /// not written.
    pub fn last(&self, reg: u8) -> Option<u8>
        requires { reg < REGISTER_COUNT }
        ensures { result ≡ slice_index_or self.now.last reg None }
    {
        self.last[usize::from(reg)]
    }

    /// Adds an access without a register.
    pub(crate) fn add_without_register(&mut self, event: Event)
        requires { length self.old.events < ACCESSES }
        ensures { self.new ≡ with_access self.old event }
    {
        self.events.push(event);
    }

    /// Adds an access whose value goes into a register.
    pub(crate) fn add_into_register(&mut self, reg: u8, event: Event)
        requires room { length self.old.events < ACCESSES }
        requires register { reg < REGISTER_COUNT }
        ensures { self.new ≡ with_read self.old reg event }
    {
        let register = usize::from(reg);
        self.last[register] = Some(self.events.len() as u8);
        self.events.push(event);
    }

    /// Adds a guard.
    pub(crate) fn add_guard(
        &mut self,
        on: Option<u8>,
        equal: bool,
        value: u32,
    ) -> Result<(), AllocError>
        ensures { IfOk result (λ _. self.new ≡ with_guard self.old (record { on = on; equal = equal; value = value })) }
    {
        self.tests.push(Tested { on, equal, value })?;
        Ok(())
    }
}
