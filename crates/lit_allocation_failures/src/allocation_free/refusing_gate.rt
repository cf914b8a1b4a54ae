//! A gate from which on every request for memory is refused, and a call of `work` that passes it.

ghost use Rattle.std.specs.Prelude.{◌≡◌, [], ◌∷◌, length};
ghost use Rattle.lit_desk.specs.Desk.{new_place};
ghost use Rattle.lit_paths.specs.Choice.{choices_of};
ghost use Rattle.lit_share.specs.Pieces.{pieces_of};

use super::mark;
use lit_desk::{Desk, Place};
use lit_paths::Plan;
use lit_share::{Gate, ShareFault, work};
use std::sync::atomic::{AtomicU64, Ordering};

/// The first piece of load buffering that has an outcome, which the search records. A piece is one choice.
const RECORDING: u64 = 3;

/// Has every request refused once the piece is entered whose outcome would be recorded.
#[derive(Drop)]
struct RefusingGate<'r> {
    rt: &'r HostRuntime,
    /// How many pieces were entered.
    entered: AtomicU64,
}

impl Gate for RefusingGate<'_> {
    type Pass = ();

    fn at(&self, _pass: &mut (), _worker: usize, piece: u64) {
        self.entered.fetch_add(1, Ordering::SeqCst);
        if piece == RECORDING {
            mark(self.rt);
        }
    }
}

/// Whether the search stops where memory is refused. It is refused in the piece whose entry ends memory, since it searches the piece after
/// the gate. That piece is the last one drawn, so the next draw gives the piece after it.
pub(super) fn stops_where_refused(
    rt: &HostRuntime,
    plan: &Plan<'_>,
    desk: Desk,
    mut places: Vec<Place>,
) -> bool
    requires pieces { desk.pieces ≡ pieces_of (length (choices_of plan.now)) 1 }
    requires new { places.items ≡ new_place desk ∷ [] }
{
    let Some(place) = places.pop() else {
        return false;
    };
    let gate = RefusingGate {
        rt,
        entered: AtomicU64::new(0),
    };
    let (mut place, answer) = work(rt.alloc(), plan, 1, &desk, place, &gate, (), 0);
    mark(rt);
    matches!(answer, Err(ShareFault::OutOfMemory))
        && gate.entered.load(Ordering::SeqCst) == RECORDING + 1
        && desk.draw(&mut place) == Some(RECORDING + 1)
}
