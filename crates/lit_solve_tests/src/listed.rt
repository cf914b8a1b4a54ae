//! A table of outcomes that is a list, and a heartbeat that counts.

use lit_order::Order;
use lit_solve::{Heartbeat, OutcomeTable};
use std::alloc::{AllocError, Global};
use std::sync::atomic::{AtomicU64, Ordering};

/// An outcome with its example.
#[derive(Drop)]
pub(super) struct Recorded {
    pub outcome: Vec<u32>,
    pub choice: u64,
    pub order: Order,
}

/// Outcomes with their examples, in the order in which they were recorded.
#[derive(Drop)]
pub(super) struct Listed {
    alloc: Global,
    rows: Vec<Recorded>,
}

impl Listed {
    /// None yet.
    pub(super) fn new(alloc: Global) -> Self {
        Listed {
            alloc,
            rows: Vec::new(alloc),
        }
    }

    /// All that were recorded.
    pub(super) fn rows(&self) -> &[Recorded] {
        self.rows.as_slice()
    }
}

impl OutcomeTable for Listed {
    ghost use Rattle.std.specs.Prelude.{map};

    ghost entries = { λ table. map (λ row. record { outcome = row.outcome.items; choice = row.choice; order = row.order.items })
        table.rows.items };

    fn has(&self, outcome: &[u32]) -> bool {
        for row in &self.rows {
            if row.outcome.as_slice() == outcome {
                return true;
            }
        }
        false
    }

    fn record(&mut self, outcome: &[u32], choice: u64, order: Order) -> Result<(), AllocError> {
        let mut values = Vec::new(self.alloc);
        values.extend_from_slice(outcome)?;
        self.rows.push(Recorded {
            outcome: values,
            choice,
            order,
        })?;
        Ok(())
    }
}

/// How many steps down a search made.
#[derive(Drop)]
pub(super) struct Beats {
    pub count: AtomicU64,
}

impl Heartbeat for Beats {
    fn beat(&self) -> Result<(), AllocError> {
        self.count.fetch_add(1, Ordering::SeqCst);
        Ok(())
    }
}
