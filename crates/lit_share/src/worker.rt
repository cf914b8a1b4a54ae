//! The state of a worker: before, during and after its call.

ghost use Rattle.std.specs.Prelude.{◌≡◌, length, All, IfOk};
ghost use Rattle.lit_desk.specs.Desk.{new_place};
ghost use Rattle.lit_share.specs.Internal.Workers.{IsReady};

use lit_desk::{Desk, Place};
use std::alloc::{AllocError, Global};

/// A worker, before its call and after it.
#[derive(Drop)]
pub(crate) enum Worker<P: Drop, A: Drop> {
    /// It has a number, a place and a pass.
    Ready(usize, Place, P),
    /// It gave its place back, with its answer.
    Ended(Place, A),
    /// Its call has begun.
    Away,
}

/// A worker for each place, with the pass of the same number.
pub(crate) fn workers_at<P: Drop, A: Drop>(
    alloc: Global,
    _desk: &Desk,
    mut places: Vec<Place>,
    mut passes: Vec<P>,
) -> Result<Vec<Worker<P, A>>, AllocError>
    requires new { All (λ place. place ≡ new_place _desk.now) places.items }
    requires passes { length passes.items ≡ length places.items }
    ensures ready { IfOk result (λ workers. All (IsReady _desk.now) workers.items) }
    ensures count { IfOk result (λ workers. length workers.items ≡ length places.items) }
{
    let mut workers = Vec::with_capacity(alloc, places.len())?;
    while let Some(place) = places.pop() {
        let Some(pass) = passes.pop() else {
            unreachable!()
        };
        // Places are taken from the back, so their number afterwards is the worker's own.
        workers.push(Worker::Ready(places.len(), place, pass))?;
    }
    Ok(workers)
}
