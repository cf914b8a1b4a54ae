//! The calls that take no memory, on values made before, while each request for memory is refused.

ghost use Rattle.std.specs.Prelude.{◌≡◌, [], ◌∷◌, length, All};
ghost use Rattle.lit_desk.specs.Desk.{IsPlaceOf, new_place};
ghost use Rattle.lit_paths.specs.Choice.{choices_of};
ghost use Rattle.lit_rel.specs.Rows.{rows_len};
ghost use Rattle.lit_share.specs.Pieces.{pieces_of};

mod refusing_gate;

use jslit::Counted;
use lit_desk::{Class2, Desk, Place};
use lit_order::{Forced, ForcedFinder, OrderFinder, PlainFinder};
use lit_paths::{ACCESS_LIMIT, COMBINATION_LIMIT, Plan, PlanFault, Tested, plan};
use lit_read::{read, show};
use lit_rel::{Between, Part, Rows};
use lit_search::{Class, Found, first_in, search_range};
use lit_share::{Gate, OpenGate, hunt};
use lit_syntax::{Cond, Test};
use refusing_gate::stops_where_refused;
use std::alloc::Global;
use std::io::{Print, Write};
use std::test::Fail;

/// The size of the two requests between which every request is refused.
const MARK: usize = 7_654_321;

const STORE_BUFFERING: &[u8] = b"test sb
bytes 2
agent A
Atomics.store(U8, 0, 1)
r0 = Atomics.load(U8, 1)
agent B
Atomics.store(U8, 1, 1)
r0 = Atomics.load(U8, 0)
check A.r0 == 0 && B.r0 == 0
";

const LOAD_BUFFERING: &[u8] = b"test lb
bytes 2
agent A
r0 = U8[0]
if r0 == 1 {
U8[1] = 1
}
agent B
r0 = U8[1]
if r0 == 1 {
U8[0] = 1
}
check A.r0 == 1 && B.r0 == 1
";

/// The text of one agent that reads a byte, with a line or two repeated.
fn repeated(alloc: Global, lines: &[u8], count: usize) -> Result<Vec<u8>, Fail> {
    let mut text = Vec::from_slice(alloc, b"test t\nbytes 1\nagent A\nr0 = U8[0]\n")?;
    for _ in 0..count {
        text.extend_from_slice(lines)?;
    }
    text.extend_from_slice(b"check A.r0 == 0\n")?;
    Ok(text)
}

fn tells_test(test: &Test) -> bool {
    test.name() == "lb"
        && test.bytes() == 2
        && test.agents() == 2
        && test.agent_name(1) == "B"
        && test.body(1).len() == 2
        && matches!(test.check(), Cond::All(_))
}

fn tells_choices(plan: &Plan<'_>) -> bool {
    if plan.total() != 9 || plan.combinations() != 4 {
        return false;
    }
    let (third, last) = (plan.sources(3), plan.sources(8));
    plan.combination(3) == 0
        && plan.combination(8) == 3
        && third.as_slice() == [5, 3].as_slice()
        && last.as_slice() == [0, 1].as_slice()
}

fn tells_events(plan: &Plan<'_>) -> bool {
    if plan.combinations() != 4 {
        return false;
    }
    let events = plan.events(0);
    if events.len() != 6 || events[2].size != 1 {
        return false;
    }
    let candidates = plan.candidates(0, 2, 0);
    candidates.as_slice() == [0, 5].as_slice()
}

fn tells_paths(plan: &Plan<'_>) -> bool {
    if plan.combinations() != 4 || plan.test().agents() != 2 {
        return false;
    }
    let path = plan.path(1, 0);
    let guard = Tested {
        on: Some(0),
        equal: true,
        value: 1,
    };
    path.events().len() == 2
        && path.tests() == [guard].as_slice()
        && path.last(0) == Some(0)
        && path.last(1).is_none()
}

fn tells_outcomes(plan: &Plan<'_>) -> bool {
    let names = plan.names();
    names.len() == 2
        && names[0] == (0, 0)
        && names[1] == (1, 0)
        && plan.asks((1, 0))
        && plan.meets(&[1, 1])
        && !plan.meets(&[0, 0])
}

fn finds_first(plan: &Plan<'_>) -> bool {
    plan.total() == 9
        && first_in(plan, Class::Met, 0, 9) == Some(3)
        && first_in(plan, Class::Unmet, 0, 9) == Some(8)
        && first_in(plan, Class::Met, 4, 9).is_none()
}

fn tells_found(found: &Found) -> bool {
    if found.len() != 2 {
        return false;
    }
    let (first, second) = (found.example(0), found.example(1));
    found.race()
        && found.outcome(0) == [0, 0].as_slice()
        && first.choice == 8
        && first.order.as_slice() == [0, 1, 2, 3].as_slice()
        && found.outcome(1) == [1, 1].as_slice()
        && second.choice == 3
        && second.order.as_slice() == [0, 1, 2, 3, 4, 5].as_slice()
}

/// Gives the next byte read a source, if it is a candidate of it.
fn give(part: &mut Part<'_>, source: u8) -> bool {
    let place = part.len();
    if place >= part.reads() {
        return false;
    }
    let is_candidate = part.combination().candidates(place).contains(&source);
    if !is_candidate {
        return false;
    }
    part.push(source);
    true
}

/// Both agents store where they read 1, and each reads what the other stored.
fn tells_part(plan: &Plan<'_>) -> bool {
    if plan.combinations() != 4 {
        return false;
    }
    let mut part = Part::open(&*plan, 0);
    if part.reads() != 2 || !give(&mut part, 0) || !part.broken() {
        return false;
    }
    if part.len() != 1 {
        return false;
    }
    part.pop();
    if part.broken() || !give(&mut part, 5) || !give(&mut part, 3) || part.broken() {
        return false;
    }
    let (from, before) = (part.reads_from(), part.happens_before());
    let with = part.synchronizes();
    if from.len() != 6 || before.len() != 6 || with.len() != 6 {
        return false;
    }
    let related = from.holds(2, 5) && from.holds(4, 3) && !with.holds(5, 2) && before.holds(2, 3);
    if !part.race() {
        return false;
    }
    related && part.coherent() && part.tear_free() && part.value(2) == 1 && part.value(4) == 1
}

/// Whether each finder gives this order.
fn find(before: &Rows, between: &Between, wanted: Option<&[u8]>) -> bool
    requires { rows_len before.now ≡ between.now.len }
{
    let (plain, forced) = (
        PlainFinder.least_order(before, between),
        ForcedFinder.least_order(before, between),
    );
    match (plain, forced) {
        (Some(plain), Some(forced)) => {
            wanted == Some(plain.as_slice()) && wanted == Some(forced.as_slice())
        }
        (None, None) => wanted.is_none(),
        _ => false,
    }
}

/// Both loads of store buffering read what made the block: there is no order.
fn finds_no_order(plan: &Plan<'_>) -> bool {
    if plan.combinations() != 1 {
        return false;
    }
    let mut part = Part::open(&*plan, 0);
    if !give(&mut part, 1) || !give(&mut part, 0) {
        return false;
    }
    let (before, between) = (part.happens_before(), part.between());
    if between.len() != 6 || !find(&before, &between, None) {
        return false;
    }
    let Some(forced) = Forced::open(&before, &between) else {
        return false;
    };
    between.forbids(1, 3, 4) && between.forbids(0, 5, 2) && !forced.extendable()
}

/// The second load reads the store: the load before the store of what it would have read.
fn finds_order(plan: &Plan<'_>) -> bool {
    if plan.combinations() != 1 {
        return false;
    }
    let mut part = Part::open(&*plan, 0);
    if !give(&mut part, 1) || !give(&mut part, 2) {
        return false;
    }
    let (before, between) = (part.happens_before(), part.between());
    if between.len() != 6 || !find(&before, &between, Some(&[0, 1, 2, 3, 4, 5])) {
        return false;
    }
    let Some(forced) = Forced::open(&before, &between) else {
        return false;
    };
    let (Some(late), Some(early)) = (forced.with(4, 3), forced.with(3, 4)) else {
        return false;
    };
    forced.with(3, 2).is_none() && !late.extendable() && early.extendable()
}

fn shares_numbers(desk: Desk, mut places: Vec<Place>) -> bool
    requires own { All (IsPlaceOf desk) places.items }
    requires all { length places.items ≡ desk.seats }
{
    if places.len() != 1 {
        return false;
    }
    let place = &mut places[0];
    let drawn = (desk.draw(place), desk.draw(place));
    let late = (desk.draw(place), desk.draw(place));
    let looked = desk.look(place, Class2::Met);
    desk.tell(place, Class2::Met, 5);
    desk.tell(place, Class2::Met, 9);
    let (met, unmet) = (
        desk.look(place, Class2::Met),
        desk.look(place, Class2::Unmet),
    );
    let totals = desk.close(places);
    drawn == (Some(0), Some(1))
        && late == (None, None)
        && looked.is_none()
        && met == Some(5)
        && unmet.is_none()
        && totals.drawn == 2
        && totals.met == Some(5)
        && totals.unmet.is_none()
}

fn hunts(plan: &Plan<'_>, desk: Desk, mut places: Vec<Place>) -> bool
    requires pieces { desk.pieces ≡ pieces_of (length (choices_of plan.now)) 1 }
    requires new { places.items ≡ new_place desk ∷ [] }
    requires all { desk.seats ≡ 1 }
{
    let Some(place) = places.pop() else {
        return false;
    };
    let place = hunt(plan, 1, &desk, place, &OpenGate, (), 0);
    let Ok(()) = places.push(place) else {
        return false;
    };
    let totals = desk.close(places);
    totals.drawn == 9 && totals.met == Some(3) && totals.unmet == Some(8)
}

fn enters(text: &[u8]) -> bool {
    OpenGate.at(&mut (), 0, 0);
    let counted = Counted::new(text);
    counted.failures() == 0 && counted.into_inner() == text
}

/// Makes a request of `MARK` bytes. What it gives is printed, so that the request is made.
fn mark(rt: &HostRuntime) {
    if let Ok(mut given) = Vec::with_capacity(rt.alloc(), MARK) {
        let _ = given.extend_from_slice(b"a request of the size that is known was granted\n");
        let _ = rt.stdout().write_all(&given);
    }
}

/// What the calls of a group are, and whether they answered as they have to.
type Told = (&'static str, bool);

/// Calls that need memory, which must be refused, and plans that have too much, which must be refused for that.
fn refused(alloc: Global, test: &Test, long: &Test, branching: &Test) -> [Told; 4] {
    let events = matches!(plan(alloc, long), Err(PlanFault::TooManyEvents));
    let paths = matches!(plan(alloc, branching), Err(PlanFault::TooManyPaths));
    [
        ("show, refused", show(alloc, test).is_err()),
        ("Desk::open, refused", Desk::open(alloc, 1, 1).is_err()),
        ("plan of too many events", events),
        ("plan of too many paths", paths),
    ]
}

/// Calls on a test, a plan and a report.
fn lent(test: &Test, plan: &Plan<'_>, found: &Found) -> [Told; 7] {
    [
        ("calls that lend parts of a Test", tells_test(test)),
        ("calls on a Plan: choices", tells_choices(plan)),
        ("calls on a Plan: events", tells_events(plan)),
        ("calls on a Plan: paths", tells_paths(plan)),
        ("calls on a Plan: outcomes", tells_outcomes(plan)),
        ("first_in", finds_first(plan)),
        ("calls that lend parts of a Found", tells_found(found)),
    ]
}

/// Calls on parts and orders of load buffering and of store buffering.
fn related(plan: &Plan<'_>, other: &Plan<'_>) -> [Told; 3] {
    [
        ("reopen, push, pop, broken, relations", tells_part(plan)),
        ("least_order, where there is none", finds_no_order(other)),
        ("least_order, with, extendable", finds_order(other)),
    ]
}

fn print<R: Print>(rt: &R, told: &[Told]) -> Result<(), Fail> {
    for (calls, answered) in told {
        let how = if *answered {
            "as it has to be"
        } else {
            "otherwise"
        };
        println!(rt; "{calls}: {how}")?;
    }
    Ok(())
}

/// Makes the calls of a desk, a hunt, a gate and a counted device, and prints how they answered.
fn call_on_desks(rt: &HostRuntime, plan: &Plan<'_>) -> Result<(), Fail> {
    let (desk, places) = Desk::open(rt.alloc(), 2, 1)?;
    let (hunted, hunters) = Desk::open(rt.alloc(), plan.total().div_ceil(1), 1)?;
    mark(rt);
    let told = [
        ("draw, tell, look, close", shares_numbers(desk, places)),
        ("hunt", hunts(plan, hunted, hunters)),
        ("at, and the calls of Counted", enters(STORE_BUFFERING)),
    ];
    mark(rt);
    print(rt, &told)
}

/// Makes a search that is refused at one piece, and prints how it answered.
fn call_to_stop(rt: &HostRuntime, plan: &Plan<'_>) -> Result<(), Fail> {
    let (desk, places) = Desk::open(rt.alloc(), plan.total().div_ceil(1), 1)?;
    let stops = stops_where_refused(rt, plan, desk, places);
    print(rt, &[("work, refused at one piece", stops)])
}

/// Makes the other calls, and prints how they answered. The first two tests are load buffering and store buffering, the
/// others have too many events and too many paths.
fn call_on_tests(
    rt: &HostRuntime,
    test: &Test,
    other: &Test,
    long: &Test,
    branching: &Test,
) -> Result<(), Fail> {
    let planned = plan(rt.alloc(), test)?;
    let other_planned = plan(rt.alloc(), other)?;
    let found = search_range(rt.alloc(), &planned, 0, planned.total())?;
    mark(rt);
    let refused = refused(rt.alloc(), test, long, branching);
    let lent = lent(test, &planned, &found);
    let related = related(&planned, &other_planned);
    mark(rt);
    print(rt, &refused)?;
    print(rt, &lent)?;
    print(rt, &related)?;
    call_on_desks(rt, &planned)?;
    call_to_stop(rt, &planned)
}

/// Makes all calls, each while every request for memory is refused, and prints how they answered.
pub(crate) fn call_all(rt: &HostRuntime) -> Result<(), Fail> {
    let alloc = rt.alloc();
    let test = read(alloc, LOAD_BUFFERING)?;
    let other = read(alloc, STORE_BUFFERING)?;
    let long = read(alloc, &repeated(alloc, b"r0 = U8[0]\n", ACCESS_LIMIT)?)?;
    let branches = COMBINATION_LIMIT.trailing_zeros() as usize + 1;
    let branching = read(alloc, &repeated(alloc, b"if r0 == 0 {\n}\n", branches)?)?;
    call_on_tests(rt, &test, &other, &long, &branching)
}
