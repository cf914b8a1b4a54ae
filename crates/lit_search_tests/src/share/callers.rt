//! Calls of `work` on threads that the caller starts.

ghost use Rattle.std.specs.Prelude.{◌≡◌, length, IfSome};
ghost use Rattle.lit_desk.specs.Desk.{IsPlaceOf};
ghost use Rattle.lit_paths.specs.Choice.{choices_of};
ghost use Rattle.lit_share.specs.Pieces.{pieces_of};

use super::found_by_three;
use lit_desk::{Desk, Place};
use lit_paths::{Plan, plan};
use lit_read::read;
use lit_search::{Found, merge};
use lit_share::{OpenGate, ShareFault, work};
use lit_test_texts::INDEPENDENT_READS;
use std::alloc::Global;
use std::test::Fail;
use std::thread::{Threads, join_mut};

/// A place, and the answer of the call that it was used for.
#[derive(Drop)]
struct Caller {
    place: Option<Place>,
    answer: Option<Result<Found, ShareFault>>,
}

impl Caller {
    fn new(place: Place) -> Caller
        ensures { result.place ≡ Some place }
    {
        Caller {
            place: Some(place),
            answer: None,
        }
    }

    /// Makes a call of `work`, by pieces of one choice.
    fn call(&mut self, alloc: Global, plan: &Plan<'_>, desk: &Desk)
        requires pieces { desk.now.pieces ≡ pieces_of (length (choices_of plan.now)) 1 }
        requires place { IfSome self.old.place (IsPlaceOf desk.now) }
        ensures { IfSome self.new.place (IsPlaceOf desk.now) }
    {
        if let Some(place) = self.place.take() {
            let (place, answer) = work(alloc, plan, 1, desk, place, &OpenGate, (), 0);
            self.place = Some(place);
            self.answer = Some(answer);
        }
    }

    /// The place, which draws no more, and the answer.
    fn ended(self, desk: &Desk) -> Option<(Place, Found)>
        requires { IfSome self.place (IsPlaceOf desk.now) }
        ensures { IfSome result (λ r. IsPlaceOf desk.now r.0) }
    {
        let Caller { place, answer } = self;
        let Some(mut place) = place else { return None };
        let Some(Ok(found)) = answer else { return None };
        if desk.draw(&mut place).is_some() {
            return None;
        }
        Some((place, found))
    }
}

/// Makes the calls of three callers, each on a thread of its own if there are threads.
fn call_all<R: Threads>(
    rt: &R,
    alloc: &Global,
    plan: &Plan<'_>,
    desk: &Desk,
    first: &mut Caller,
    second: &mut Caller,
    third: &mut Caller,
)
    requires pieces { desk.now.pieces ≡ pieces_of (length (choices_of plan.now)) 1 }
    requires first { IfSome first.old.place (IsPlaceOf desk.now) }
    requires second { IfSome second.old.place (IsPlaceOf desk.now) }
    requires third { IfSome third.old.place (IsPlaceOf desk.now) }
    ensures first { IfSome first.new.place (IsPlaceOf desk.now) }
    ensures second { IfSome second.new.place (IsPlaceOf desk.now) }
    ensures third { IfSome third.new.place (IsPlaceOf desk.now) }
{
    join_mut(
        rt,
        &mut ||
            requires { (desk.now.pieces ≡ pieces_of (length (choices_of plan.now)) 1) × IfSome first.now.place (IsPlaceOf desk.now) }
            ensures { IfSome first.exit.now.place (IsPlaceOf desk.entry.now) }
        { first.call(*alloc, plan, desk) },
        &mut ||
            requires { (desk.now.pieces ≡ pieces_of (length (choices_of plan.now)) 1) × IfSome second.now.place (IsPlaceOf desk.now)
                × IfSome third.now.place (IsPlaceOf desk.now) }
            ensures { IfSome second.exit.now.place (IsPlaceOf desk.entry.now) × IfSome third.exit.now.place (IsPlaceOf desk.entry.now) }
        { call_both(rt, alloc, plan, desk, second, third) },
    );
}

/// Makes the calls of two callers.
fn call_both<R: Threads>(
    rt: &R,
    alloc: &Global,
    plan: &Plan<'_>,
    desk: &Desk,
    first: &mut Caller,
    second: &mut Caller,
)
    requires pieces { desk.now.pieces ≡ pieces_of (length (choices_of plan.now)) 1 }
    requires first { IfSome first.old.place (IsPlaceOf desk.now) }
    requires second { IfSome second.old.place (IsPlaceOf desk.now) }
    ensures first { IfSome first.new.place (IsPlaceOf desk.now) }
    ensures second { IfSome second.new.place (IsPlaceOf desk.now) }
{
    join_mut(
        rt,
        &mut ||
            requires { (desk.now.pieces ≡ pieces_of (length (choices_of plan.now)) 1) × IfSome first.now.place (IsPlaceOf desk.now) }
            ensures { IfSome first.exit.now.place (IsPlaceOf desk.entry.now) }
        { first.call(*alloc, plan, desk) },
        &mut ||
            requires { (desk.now.pieces ≡ pieces_of (length (choices_of plan.now)) 1) × IfSome second.now.place (IsPlaceOf desk.now) }
            ensures { IfSome second.exit.now.place (IsPlaceOf desk.entry.now) }
        { second.call(*alloc, plan, desk) },
    );
}

/// Whether two reports have the same outcomes with the same examples.
fn is_same(found: &Found, other: &Found) -> bool {
    if found.len() != other.len() {
        return false;
    }
    for place in 0..found.len() {
        if found.outcome(place) != other.outcome(place)
            || found.example(place) != other.example(place)
        {
            return false;
        }
    }
    true
}

/// The answers of three calls on one desk merged, and how many pieces they drew. `None` where memory was refused, or where
/// a place would have drawn on.
fn called<R: Threads>(rt: &R, alloc: Global, plan: &Plan<'_>) -> Option<(Found, u64)> {
    let Ok((desk, mut places)) = Desk::open(alloc, plan.total().div_ceil(1), 3) else {
        return None;
    };
    let mut third = Caller::new(places.pop()?);
    let mut second = Caller::new(places.pop()?);
    let mut first = Caller::new(places.pop()?);
    call_all(rt, &alloc, plan, &desk, &mut first, &mut second, &mut third);
    let (first, found) = first.ended(&desk)?;
    let (second, more) = second.ended(&desk)?;
    let (third, rest) = third.ended(&desk)?;
    let found = merge(alloc, found, more).ok()?;
    let found = merge(alloc, found, rest).ok()?;
    let places = vec![in alloc; first, second, third].ok()?;
    Some((found, desk.close(places).drawn))
}

#[test]
fn three_calls_of_one_desk(rt: HostRuntime) -> Result<(), Fail> {
    let test = read(rt.alloc(), INDEPENDENT_READS.as_bytes())?;
    let plan = plan(rt.alloc(), &test)?;
    assert_eq!(rt; plan.total(), 16);
    let Some((merged, drawn)) = called(&rt, rt.alloc(), &plan) else {
        panic!(rt; "each place is done, with an answer")
    };
    assert_eq!(rt; drawn, 16);
    assert_eq!(rt; merged.len(), 15);
    let found = found_by_three(&rt, &plan)?;
    assert!(rt; is_same(&merged, &found));
    Ok(())
}
