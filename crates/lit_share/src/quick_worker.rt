//! The call of one worker of a quick search.

ghost use Rattle.std.specs.Prelude.{◌≡◌, ◌<◌, ◌≤◌, length, All};
ghost use Rattle.lit_desk.specs.Desk.{IsPlaceOf, IsDone, draws_of};
ghost use Rattle.lit_paths.specs.Choice.{choices_of};
ghost use Rattle.lit_share.specs.Pieces.{pieces_of};
ghost use Rattle.lit_share.specs.Drawn.{drawn_since, DrewOn};
ghost use Rattle.lit_share.specs.Hunted.{desk_class as class_of_desk, IsHunted, HasTold};

use crate::gate::Gate;
use crate::limits::CUT_LIMIT;
use crate::pieces::piece;
use lit_desk::{Class2, Desk, Place};
use lit_paths::Plan;
use lit_search::{Class, first_in};

/// The desk's class for a class of outcomes.
fn desk_class(class: Class) -> Class2
    ensures { result ≡ class_of_desk class }
{
    match class {
        Class::Met => Class2::Met,
        Class::Unmet => Class2::Unmet,
    }
}

/// Tells the desk the first choice of a class in a piece, if there is one. Skips a piece that begins above a number told already.
fn hunt_in(plan: &Plan<'_>, cut: u64, desk: &Desk, place: &mut Place, class: Class, number: u64)
    requires cut { (0 < cut) × (cut ≤ CUT_LIMIT) }
    requires known { number < pieces_of (length (choices_of plan.now)) cut }
    requires place { IsPlaceOf desk.now place.old }
    ensures own { IsPlaceOf desk.now place.new }
    ensures draws { draws_of place.new ≡ draws_of place.old }
    ensures told { (class : Class) → HasTold plan.now class place.old place.new }
    ensures hunted { IsHunted plan.now cut class place.new number }
{
    let piece = piece(plan.total(), cut, number);
    if let Some(least) = desk.look(place, desk_class(class))
        && least < piece.start
    {
        return;
    }
    if let Some(first) = first_in(plan, class, piece.start, piece.end) {
        desk.tell(place, desk_class(class), first);
    }
}

/// Draws pieces until none is left, enters each by the gate, and tells the desk the first choice of each class in each
/// piece: the least choice there of a valid execution with an outcome in the class. A piece is skipped in a class where
/// it begins above a number that was told there. The cut is 1 to `CUT_LIMIT`, the place is one of the desk, and the desk
/// has as many pieces as the cut makes of the plan's choices: the total over the cut, rounded up. Takes no memory, but for
/// what the gate does.
pub fn hunt<G: Gate>(
    plan: &Plan<'_>,
    cut: u64,
    desk: &Desk,
    mut place: Place,
    gate: &G,
    mut pass: G::Pass,
    worker: usize,
) -> Place
    requires cut { (0 < cut) × (cut ≤ CUT_LIMIT) }
    requires pieces { desk.now.pieces ≡ pieces_of (length (choices_of plan.now)) cut }
    requires place { IsPlaceOf desk.now place }
    ensures own { IsPlaceOf desk.now result }
    ensures done { IsDone result }
    ensures drew { DrewOn place result }
    ensures told { (class : Class) → HasTold plan.now class place result }
    ensures hunted { (class : Class) → All (IsHunted plan.now cut class result) (drawn_since place result) }
{
    while let Some(number) = desk.draw(&mut place) {
        gate.at(&mut pass, worker, number);
        hunt_in(plan, cut, desk, &mut place, Class::Met, number);
        hunt_in(plan, cut, desk, &mut place, Class::Unmet, number);
    }
    place
}
