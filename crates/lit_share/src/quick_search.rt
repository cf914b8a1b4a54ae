//! A quick search by several workers.

ghost use Rattle.std.specs.Prelude.{◌≡◌, ◌<◌, ◌≤◌, List, ℕ, length, All, IfOk, MatchOption};
ghost use Rattle.std.specs.Thread.{IsSync};
ghost use Rattle.lit_paths.specs.Choice.{choices_of};
ghost use Rattle.lit_paths.specs.declared.limits.TheConstants.{CHOICE_LIMIT};
ghost use Rattle.lit_desk.specs.declared.limits.TheConstants.{MOST_SEATS};
ghost use Rattle.lit_valid.specs.declared.class.Class.TheVariants as of_class;
ghost use Rattle.lit_search.specs.FirstOfClass.{HasNoneOf, IsFirstOf};
ghost use Rattle.lit_valid.specs.Gives.{Gives, HasLeastOrder};
ghost use Rattle.lit_search.specs.Report.{in_range};
ghost use Rattle.lit_share.specs.Pieces.{pieces_of};
ghost use Rattle.lit_share.specs.Quick.{IsQuickAnswer};
ghost use Rattle.lit_share.specs.Internal.Workers.{IsReady, HasHunted, IsHuntedOut};

use crate::fault::ShareFault;
use crate::gate::Gate;
use crate::limits::CUT_LIMIT;
use crate::quick_answer::Quick;
use crate::quick_worker::hunt;
use crate::worker::{Worker, workers_at};
use lit_desk::{Desk, Place};
use lit_paths::Plan;
use lit_search::{Class, Example, search_range};
use std::alloc::Global;
use std::mem;
use std::thread::{Threads, join_mut};

/// A worker of a quick search. It has no answer of its own: it tells the desk what it finds.
type Hunter<P> = Worker<P, ()>;

/// Makes one worker's call of `hunt`.
fn hunt_one<P: Send + Drop, G: Gate<Pass = P>>(
    plan: &Plan<'_>,
    cut: &u64,
    desk: &Desk,
    gate: &G,
    worker: &mut Hunter<P>,
)
    requires cut { (0 < cut.now) × (cut.now ≤ CUT_LIMIT) }
    requires pieces { desk.now.pieces ≡ pieces_of (length (choices_of plan.now)) cut.now }
    requires ready { IsReady desk.now worker.old }
    ensures { HasHunted plan.now cut.now desk.now worker.new }
{
    if let Worker::Ready(number, place, pass) = mem::replace(worker, Worker::Away) {
        let place = hunt(plan, *cut, desk, place, gate, pass, number);
        *worker = Worker::Ended(place, ());
    }
}

/// Makes the calls of all workers, each on a thread of its own if there are threads. It splits the list in halves: `join_mut` joins
/// two calls.
fn hunt_all<R: Threads + Sync, P: Send + Drop, G: Gate<Pass = P>>(
    rt: &R,
    plan: &Plan<'_>,
    cut: &u64,
    desk: &Desk,
    gate: &G,
    workers: &mut [Hunter<P>],
)
    requires cut { (0 < cut.now) × (cut.now ≤ CUT_LIMIT) }
    requires pieces { desk.now.pieces ≡ pieces_of (length (choices_of plan.now)) cut.now }
    requires some { 0 < length workers.old }
    requires ready { All (IsReady desk.now) workers.old }
    ensures { All (HasHunted plan.now cut.now desk.now) workers.new }
{
    if workers.len() == 1 {
        hunt_one(plan, cut, desk, gate, &mut workers[0]);
        return;
    }
    let (front, back) = workers.split_at_mut(workers.len() / 2);
    join_mut(
        rt,
        &mut ||
            requires { IsSync R.row × (0 < cut.now) × (cut.now ≤ CUT_LIMIT)
                × (desk.now.pieces ≡ pieces_of (length (choices_of plan.now)) cut.now)
                × (0 < length front.now) × All (IsReady desk.now) front.now }
            ensures { All (HasHunted plan.entry.now cut.entry.now desk.entry.now) front.exit.now }
        { hunt_all(rt, plan, cut, desk, gate, front) },
        &mut ||
            requires { IsSync R.row × (0 < cut.now) × (cut.now ≤ CUT_LIMIT)
                × (desk.now.pieces ≡ pieces_of (length (choices_of plan.now)) cut.now)
                × (0 < length back.now) × All (IsReady desk.now) back.now }
            ensures { All (HasHunted plan.entry.now cut.entry.now desk.entry.now) back.exit.now }
        { hunt_all(rt, plan, cut, desk, gate, back) },
    );
}

/// The places of all workers.
fn places_of<P: Drop>(
    alloc: Global,
    _plan: &Plan<'_>,
    _cut: u64,
    _desk: &Desk,
    mut workers: Vec<Hunter<P>>,
) -> Result<Vec<Place>, ShareFault>
    requires some { 0 < length workers.items }
    requires ended { All (HasHunted _plan.now _cut _desk.now) workers.items }
    ensures hunted { IfOk result (λ places. All (IsHuntedOut _plan.now _cut _desk.now) places.items) }
    ensures count { IfOk result (λ places. length places.items ≡ length workers.items) }
    ensures some { IfOk result (λ places. 0 < length places.items) }
{
    let mut places = Vec::with_capacity(alloc, workers.len())?;
    while let Some(worker) = workers.pop() {
        let Worker::Ended(place, ()) = worker else {
            unreachable!()
        };
        places.push(place)?;
    }
    Ok(places)
}

/// A choice of a valid execution, with its least memory-order.
fn example_of(alloc: Global, plan: &Plan<'_>, choice: u64) -> Result<Example, ShareFault>
    requires few { length (choices_of plan.now) ≤ CHOICE_LIMIT }
    requires known { choice < length (choices_of plan.now) }
    requires given { (outcome : List ℕ) × Gives plan.now choice outcome }
    ensures choice { IfOk result (λ example. example.choice ≡ choice) }
    ensures order { IfOk result (λ example. HasLeastOrder plan.now choice example.order.items) }
{
    // The desk has only the choice's number: a search of this one choice finds its memory-order.
    let found = search_range(alloc, plan, choice, choice + 1)?;
    let order = found.example(0).order.clone()?;
    Ok(Example { choice, order })
}

/// The first choice of a class, if there is one, with its least memory-order.
fn answer_of(
    alloc: Global,
    plan: &Plan<'_>,
    _class: Class,
    first: Option<u64>,
) -> Result<Option<Example>, ShareFault>
    requires few { length (choices_of plan.now) ≤ CHOICE_LIMIT }
    requires first { MatchOption first (HasNoneOf plan.now _class (in_range 0 (length (choices_of plan.now))))
        (IsFirstOf plan.now _class (in_range 0 (length (choices_of plan.now)))) }
    ensures { IfOk result (IsQuickAnswer plan.now _class) }
{
    match first {
        Some(choice) => Ok(Some(example_of(alloc, plan, choice)?)),
        None => Ok(None),
    }
}

/// The least choice of each class of outcomes, with its least memory-order, by as many workers as there are passes: 1 to
/// `MOST_SEATS` of `lit_desk`. The choices are cut into pieces of `cut` choices, 1 to `CUT_LIMIT`; the workers draw these
/// from one desk, each by one call of `hunt`. Answers `ShareFault::OutOfMemory` where a growth was refused.
pub fn quick<R: Threads + Sync, G: Gate>(
    rt: &R,
    alloc: Global,
    plan: &Plan<'_>,
    cut: u64,
    gate: &G,
    passes: Vec<G::Pass>,
) -> Result<Quick, ShareFault>
    requires cut { (0 < cut) × (cut ≤ CUT_LIMIT) }
    requires passes { (0 < length passes.items) × (length passes.items ≤ MOST_SEATS) }
    ensures met { IfOk result (λ quick. IsQuickAnswer plan.now of_class.Met quick.met) }
    ensures unmet { IfOk result (λ quick. IsQuickAnswer plan.now of_class.Unmet quick.unmet) }
{
    let (desk, places) = Desk::open(alloc, plan.total().div_ceil(cut), passes.len())?;
    let mut workers = workers_at(alloc, &desk, places, passes)?;
    hunt_all(rt, plan, &cut, &desk, gate, &mut workers);
    let places = places_of(alloc, plan, cut, &desk, workers)?;
    let totals = desk.close(places);
    Ok(Quick {
        met: answer_of(alloc, plan, Class::Met, totals.met)?,
        unmet: answer_of(alloc, plan, Class::Unmet, totals.unmet)?,
    })
}
