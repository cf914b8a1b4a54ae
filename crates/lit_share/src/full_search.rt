//! A search for all outcomes by several workers.

ghost use Rattle.std.specs.Prelude.{◌≡◌, ◌<◌, ◌≤◌, length, All, IfOk};
ghost use Rattle.std.specs.Thread.{IsSync};
ghost use Rattle.lit_paths.specs.Choice.{choices_of};
ghost use Rattle.lit_desk.specs.Desk.{IsPlaceOf, IsDone, all_draws};
ghost use Rattle.lit_desk.specs.declared.limits.TheConstants.{MOST_SEATS};
ghost use Rattle.lit_search.specs.Report.{IsReport, in_range};
ghost use Rattle.lit_share.specs.Pieces.{in_pieces, pieces_of};
ghost use Rattle.lit_share.specs.Internal.Workers.{IsReady, HasSearched};

use crate::fault::ShareFault;
use crate::gate::Gate;
use crate::limits::CUT_LIMIT;
use crate::search_worker::work;
use crate::worker::{Worker, workers_at};
use lit_desk::{Desk, Place};
use lit_paths::Plan;
use lit_search::{Collector, Found, merge};
use std::alloc::Global;
use std::mem;
use std::thread::{Threads, join_mut};

/// A worker of a search, with the answer of `work`.
type Searcher<P> = Worker<P, Result<Found, ShareFault>>;

/// Makes one worker's call of `work`.
fn search_one<P: Send + Drop, G: Gate<Pass = P>>(
    alloc: &Global,
    plan: &Plan<'_>,
    cut: &u64,
    desk: &Desk,
    gate: &G,
    worker: &mut Searcher<P>,
)
    requires cut { (0 < cut.now) × (cut.now ≤ CUT_LIMIT) }
    requires pieces { desk.now.pieces ≡ pieces_of (length (choices_of plan.now)) cut.now }
    requires ready { IsReady desk.now worker.old }
    ensures { HasSearched plan.now cut.now desk.now worker.new }
{
    if let Worker::Ready(number, place, pass) = mem::replace(worker, Worker::Away) {
        let (place, answer) = work(*alloc, plan, *cut, desk, place, gate, pass, number);
        *worker = Worker::Ended(place, answer);
    }
}

/// Makes the calls of all workers, each on a thread of its own if there are threads. It splits the list in halves: `join_mut` joins
/// two calls (decision 52).
fn search_all<R: Threads + Sync, P: Send + Drop, G: Gate<Pass = P>>(
    rt: &R,
    alloc: &Global,
    plan: &Plan<'_>,
    cut: &u64,
    desk: &Desk,
    gate: &G,
    workers: &mut [Searcher<P>],
)
    requires cut { (0 < cut.now) × (cut.now ≤ CUT_LIMIT) }
    requires pieces { desk.now.pieces ≡ pieces_of (length (choices_of plan.now)) cut.now }
    requires some { 0 < length workers.old }
    requires ready { All (IsReady desk.now) workers.old }
    ensures { All (HasSearched plan.now cut.now desk.now) workers.new }
{
    if workers.len() == 1 {
        search_one(alloc, plan, cut, desk, gate, &mut workers[0]);
        return;
    }
    let (front, back) = workers.split_at_mut(workers.len() / 2);
    join_mut(
        rt,
        &mut ||
            requires { IsSync R.row × (0 < cut.now) × (cut.now ≤ CUT_LIMIT)
                × (desk.now.pieces ≡ pieces_of (length (choices_of plan.now)) cut.now)
                × (0 < length front.now) × All (IsReady desk.now) front.now }
            ensures { All (HasSearched plan.entry.now cut.entry.now desk.entry.now) front.exit.now }
        { search_all(rt, alloc, plan, cut, desk, gate, front) },
        &mut ||
            requires { IsSync R.row × (0 < cut.now) × (cut.now ≤ CUT_LIMIT)
                × (desk.now.pieces ≡ pieces_of (length (choices_of plan.now)) cut.now)
                × (0 < length back.now) × All (IsReady desk.now) back.now }
            ensures { All (HasSearched plan.entry.now cut.entry.now desk.entry.now) back.exit.now }
        { search_all(rt, alloc, plan, cut, desk, gate, back) },
    );
}

/// The places of all workers, and their answers merged (decision 53).
fn merged<P: Drop>(
    alloc: Global,
    plan: &Plan<'_>,
    _cut: u64,
    _desk: &Desk,
    mut workers: Vec<Searcher<P>>,
) -> Result<(Vec<Place>, Found), ShareFault>
    requires some { 0 < length workers.items }
    requires ended { All (HasSearched plan.now _cut _desk.now) workers.items }
    ensures own { IfOk result (λ r. All (IsPlaceOf _desk.now) r.0.items) }
    ensures done { IfOk result (λ r. All IsDone r.0.items) }
    ensures count { IfOk result (λ r. length r.0.items ≡ length workers.items) }
    ensures some { IfOk result (λ r. 0 < length r.0.items) }
    ensures reported { IfOk result (λ r. IsReport plan.now (in_pieces (length (choices_of plan.now)) _cut (all_draws r.0.items)) r.1) }
{
    let mut places = Vec::with_capacity(alloc, workers.len())?;
    // The merge starts from the report of no choices.
    let mut found = Collector::new(alloc, &*plan).into_found()?;
    while let Some(worker) = workers.pop() {
        let Worker::Ended(place, answer) = worker else {
            unreachable!()
        };
        found = merge(alloc, found, answer?)?;
        places.push(place)?;
    }
    Ok((places, found))
}

/// The report of all choices of a plan, by as many workers as there are passes: 1 to `MOST_SEATS` of `lit_desk`. The
/// choices are cut into pieces of `cut` choices, 1 to `CUT_LIMIT`; the workers draw these from one desk, each by one call
/// of `work`. Answers `ShareFault::OutOfMemory` where a growth was refused, in any worker.
pub fn search<R: Threads + Sync, G: Gate>(
    rt: &R,
    alloc: Global,
    plan: &Plan<'_>,
    cut: u64,
    gate: &G,
    passes: Vec<G::Pass>,
) -> Result<Found, ShareFault>
    requires cut { (0 < cut) × (cut ≤ CUT_LIMIT) }
    requires passes { (0 < length passes.items) × (length passes.items ≤ MOST_SEATS) }
    ensures { IfOk result (IsReport plan.now (in_range 0 (length (choices_of plan.now)))) }
{
    let (desk, places) = Desk::open(alloc, plan.total().div_ceil(cut), passes.len())?;
    let mut workers = workers_at(alloc, &desk, places, passes)?;
    search_all(rt, &alloc, plan, &cut, &desk, gate, &mut workers);
    let (places, found) = merged(alloc, plan, cut, &desk, workers)?;
    desk.close(places);
    Ok(found)
}
