//! The state of one agent in an interleaving, which carries out its statements in turns.

ghost use Rattle.std.specs.Prelude.{◌≡◌, ℕ, ◌<◌, IfOk, true, replicate, length, slice_index};
ghost use Rattle.lit_syntax.specs.declared.limits.TheConstants.{REGISTERS as REGISTER_COUNT};
ghost use Rattle.lit_syntax.specs.Litmus.{statement_of, statements_of};
ghost use Rattle.lit_syntax.specs.Syntax.{AreStatementsIn, IsStatementIn, End};
ghost use Rattle.lit_interleave.specs.Interleaving.{Progress, accessed, after, after_statement, from_access};
ghost use Rattle.lit_interleave.specs.Internal.Runners.{IsNextAccessOrNone, coded_progress, is_access, progress};

use crate::block::{number_at, put_number};
use crate::deciding::next_access;
use lit_syntax::{REGISTERS, Stmt};
use std::alloc::{AllocError, Global};
use std::marker::Model;

/// How far an agent has come. A clause sees it as a `Progress`.
#[derive(Drop)]
pub(crate) struct Runner<'t> {
    /// The remaining statements of each nested list that the agent is in, the innermost last.
    left: Vec<&'t [Stmt]>,
    registers: [u32; REGISTERS],
}

impl<'t> Model for Runner<'t> {
    ghost Value = { Progress };

    ghost coded = { coded_progress };

    ghost view = { progress };
}

impl<'t> Runner<'t> {
    /// An agent before its first statement.
    pub(crate) fn new(alloc: Global, body: &'t [Stmt]) -> Result<Self, AllocError>
        ensures { IfOk result (λ runner. runner ≡ record { left = statements_of body.now; registers = replicate REGISTER_COUNT 0 }) }
    {
        let mut left = Vec::new(alloc);
        left.push(body)?;
        Ok(Runner {
            left,
            registers: [0; REGISTERS],
        })
    }

    /// The value of a register.
    pub(crate) fn register(&self, reg: u8) -> u32
        requires { reg < REGISTER_COUNT }
        ensures { result ≡ slice_index self.now.registers reg }
    {
        self.registers[usize::from(reg)]
    }

    /// Takes the next access off what is left, and decides each `if` before it. `None` where no access is left.
    fn next(&mut self) -> Result<Option<&'t Stmt>, AllocError>
        requires { (bytes : ℕ) × AreStatementsIn bytes self.old.left }
        ensures registers { self.new.registers ≡ self.old.registers }
        ensures next { IfOk result (λ next. IsNextAccessOrNone self.old.registers self.old.left next self.new.left) }
    {
        next_access(&mut self.left, &self.registers)
    }

    /// Carries out an access.
    fn carry_out(&mut self, access: &Stmt, block: &mut [u8])
        requires said { IsStatementIn (length block.old) (statement_of access.now) }
        requires access { is_access (statement_of access.now) ≡ true }
        ensures left { self.new.left ≡ self.old.left }
        ensures done { record { block = block.new; registers = self.new.registers }
            ≡ after_statement (statement_of access.now) (record { block = block.old; registers = self.old.registers }) }
    {
        match access {
            Stmt::Load {
                reg,
                view,
                index,
                ..
            } => {
                self.registers[usize::from(*reg)] = number_at(block, *view, *index);
            }
            Stmt::Store {
                view,
                index,
                value,
                ..
            } => put_number(block, *view, *index, *value),
            Stmt::Exchange {
                reg,
                view,
                index,
                value,
            } => {
                self.registers[usize::from(*reg)] = number_at(block, *view, *index);
                put_number(block, *view, *index, *value);
            }
            Stmt::CompareExchange {
                reg,
                view,
                index,
                expected,
                value,
            } => {
                let found = number_at(block, *view, *index);
                self.registers[usize::from(*reg)] = found;
                if found == *expected {
                    put_number(block, *view, *index, *value);
                }
            }
            Stmt::If { .. } => unreachable!(),
        }
    }

    /// A turn: the statements up to and including the next access, on the block.
    pub(crate) fn turn(&mut self, block: &mut [u8]) -> Result<(), AllocError>
        requires { AreStatementsIn (length block.old) self.old.left }
        ensures left { IfOk result (λ _. self.new.left ≡ (accessed (from_access self.old.registers self.old.left)
            (record { block = block.old; registers = self.old.registers })).0) }
        ensures done { IfOk result (λ _. record { block = block.new; registers = self.new.registers }
            ≡ (accessed (from_access self.old.registers self.old.left) (record { block = block.old; registers = self.old.registers })).1) }
    {
        // Where no access is left, `next` still takes the remaining `if`s (decision 47).
        if let Some(access) = self.next()? {
            self.carry_out(access, block);
        }
        Ok(())
    }

    /// Carries out all remaining statements, on the block.
    pub(crate) fn finish(&mut self, block: &mut [u8]) -> Result<(), AllocError>
        requires { AreStatementsIn (length block.old) self.old.left }
        ensures left { IfOk result (λ _. self.new.left ≡ End) }
        ensures done { IfOk result (λ _. record { block = block.new; registers = self.new.registers }
            ≡ after self.old.left (record { block = block.old; registers = self.old.registers })) }
    {
        'accesses: while let Some(next) = self.next()? {
            self.carry_out(next, block);
        }
        Ok(())
    }
}
