//! The call of one worker of a search.

ghost use Rattle.std.specs.Prelude.{◌≡◌, ◌<◌, ◌≤◌, length, IfOk, OnOk};
ghost use Rattle.lit_desk.specs.Desk.{IsPlaceOf, IsDone};
ghost use Rattle.lit_paths.specs.Choice.{choices_of};
ghost use Rattle.lit_search.specs.Report.{IsReport};
ghost use Rattle.lit_share.specs.Pieces.{pieces_of, in_pieces};
ghost use Rattle.lit_share.specs.Drawn.{drawn_since, DrewOn, OnlyDrew};

use crate::fault::ShareFault;
use crate::gate::{Gate, GateBeat};
use crate::limits::CUT_LIMIT;
use crate::pieces::piece;
use lit_desk::{Desk, Place};
use lit_paths::Plan;
use lit_search::{Collector, Found};
use std::alloc::Global;

/// Draws pieces until none is left, enters each by the gate, and gives the report of the pieces drawn in this call. The
/// cut is 1 to `CUT_LIMIT`, the place is one of the desk, and the desk has as many pieces as the cut makes of the plan's
/// choices: the total over the cut, rounded up.
///
/// Answers `ShareFault::OutOfMemory` where a growth was refused; it stops then, and the pieces drawn stay drawn.
pub fn work<G: Gate>(
    alloc: Global,
    plan: &Plan<'_>,
    cut: u64,
    desk: &Desk,
    mut place: Place,
    gate: &G,
    mut pass: G::Pass,
    worker: usize,
) -> (Place, Result<Found, ShareFault>)
    requires cut { (0 < cut) × (cut ≤ CUT_LIMIT) }
    requires pieces { desk.now.pieces ≡ pieces_of (length (choices_of plan.now)) cut }
    requires place { IsPlaceOf desk.now place }
    ensures own { IsPlaceOf desk.now result.0 }
    ensures drew { DrewOn place result.0 }
    ensures only { OnlyDrew place result.0 }
    ensures done { OnOk result.1 (IsDone result.0) }
    ensures reported { IfOk result.1 (IsReport plan.now (in_pieces (length (choices_of plan.now)) cut (drawn_since place result.0))) }
{
    let mut collector = Collector::new(alloc, &*plan);
    while let Some(number) = desk.draw(&mut place) {
        gate.at(&mut pass, worker, number);
        let piece = piece(plan.total(), cut, number);
        if let Err(fault) = collector.take(&GateBeat { gate }, piece.start, piece.end) {
            return (place, Err(fault.into()));
        }
    }
    (place, collector.into_found().map_err(ShareFault::from))
}
