//! Callers on threads of their own.

ghost use Rattle.std.specs.Prelude.{◌≡◌, ◌<◌, ◌≤◌, All, IfOk};
ghost use Rattle.std.specs.Thread.{IsSync};
ghost use Rattle.lit_desk.specs.Desk.{IsPlaceOf};

use lit_desk::{Class2, Desk, MOST_SEATS, Place};
use std::alloc::{AllocError, Global};
use std::mem;
use std::test::Fail;
use std::thread::{Threads, join_mut};

const PIECES: usize = 1000;

/// What a caller recorded: the numbers drawn, and what each look gave in each class.
#[derive(Drop)]
struct Record {
    drawn: Vec<u64>,
    met: Vec<u64>,
    unmet: Vec<u64>,
}

impl Record {
    fn new(alloc: Global) -> Result<Record, AllocError> {
        Ok(Record {
            drawn: Vec::with_capacity(alloc, PIECES)?,
            met: Vec::with_capacity(alloc, PIECES)?,
            unmet: Vec::with_capacity(alloc, PIECES)?,
        })
    }

    /// Whether each number drawn is above the one before.
    fn is_ascending(&self) -> bool {
        self.drawn.windows(2).all(|pair| pair[0] < pair[1])
    }

    /// Whether no look gave less than these.
    fn sees_no_less(&self, met: u64, unmet: u64) -> bool {
        self.met.iter().all(|number| *number >= met)
            && self.unmet.iter().all(|number| *number >= unmet)
    }

    fn add(&mut self, number: u64, met: Option<u64>, unmet: Option<u64>) {
        let _ = self.drawn.push(number);
        if let Some(least) = met {
            let _ = self.met.push(least);
        }
        if let Some(least) = unmet {
            let _ = self.unmet.push(least);
        }
    }
}

/// A place, and what its caller recorded.
#[derive(Drop)]
struct Caller {
    place: Place,
    record: Record,
}

impl Caller {
    /// Draws until none is left, tells some of the numbers drawn, and looks after each draw.
    fn work(&mut self, desk: &Desk)
        requires pieces { desk.now.pieces ≤ PIECES }
        requires place { IsPlaceOf desk.now self.old.place }
        ensures { IsPlaceOf desk.now self.new.place }
    {
        for _ in 0..PIECES {
            let Some(number) = desk.draw(&mut self.place) else {
                break;
            };
            tell(desk, &mut self.place, number);
            let met = desk.look(&mut self.place, Class2::Met);
            let unmet = desk.look(&mut self.place, Class2::Unmet);
            self.record.add(number, met, unmet);
        }
    }
}

/// Tells a number that was drawn, if it is one of those that count.
fn tell(desk: &Desk, place: &mut Place, number: u64)
    requires place { IsPlaceOf desk.now place.old }
    requires number { number < PIECES }
    ensures { IsPlaceOf desk.now place.new }
{
    if number > 500 && number % 7 == 0 {
        desk.tell(place, Class2::Met, number);
    }
    if number > 990 {
        desk.tell(place, Class2::Unmet, number);
    }
}

/// Each caller works on a thread of its own, if there are threads.
fn work_all<R: Threads + Sync>(rt: &R, desk: &Desk, callers: &mut [Caller])
    requires pieces { desk.now.pieces ≤ PIECES }
    requires places { All (λ c. IsPlaceOf desk.now c.place) callers.old }
    ensures { All (λ c. IsPlaceOf desk.now c.place) callers.new }
{
    if callers.len() < 2 {
        for caller in callers {
            caller.work(desk);
        }
        return;
    }
    let (front, back) = callers.split_at_mut(callers.len() / 2);
    join_mut(
        rt,
        &mut ||
            requires { IsSync R.row × (desk.now.pieces ≤ PIECES) × All (λ c. IsPlaceOf desk.now c.place) front.now }
            ensures { All (λ c. IsPlaceOf desk.entry.now c.place) front.exit.now }
        { work_all(rt, desk, front) },
        &mut ||
            requires { IsSync R.row × (desk.now.pieces ≤ PIECES) × All (λ c. IsPlaceOf desk.now c.place) back.now }
            ensures { All (λ c. IsPlaceOf desk.entry.now c.place) back.exit.now }
        { work_all(rt, desk, back) },
    );
}

/// Strikes a number off, or says that it is none of them or has been struck off.
fn strike(struck: &mut [bool], number: u64) -> bool {
    let Some(slot) = usize::try_from(number).ok().and_then(|n| struck.get_mut(n)) else {
        return false;
    };
    !mem::replace(slot, true)
}

/// Whether each number from 0 on, as many as are wanted, stands once in what the callers drew.
fn drew_each_once(callers: &[Caller], pieces: usize) -> bool {
    let mut struck = [false; PIECES];
    let mut count = 0usize;
    for caller in callers {
        for number in caller.record.drawn.iter() {
            if !strike(&mut struck, *number) {
                return false;
            }
            count = count.wrapping_add(1);
        }
    }
    count == pieces
}

fn callers_at(
    alloc: Global,
    _desk: &Desk,
    mut places: Vec<Place>,
) -> Result<Vec<Caller>, AllocError>
    requires { All (IsPlaceOf _desk.now) places.items }
    ensures { IfOk result (λ v. All (λ c. IsPlaceOf _desk.now c.place) v.items) }
{
    let mut callers = Vec::with_capacity(alloc, places.len())?;
    while let Some(place) = places.pop() {
        let record = Record::new(alloc)?;
        callers.push(Caller { place, record })?;
    }
    Ok(callers)
}

fn places_of(
    alloc: Global,
    _desk: &Desk,
    mut callers: Vec<Caller>,
) -> Result<Vec<Place>, AllocError>
    requires { All (λ c. IsPlaceOf _desk.now c.place) callers.items }
    ensures { IfOk result (λ v. All (IsPlaceOf _desk.now) v.items) }
{
    let mut places = Vec::with_capacity(alloc, callers.len())?;
    while let Some(caller) = callers.pop() {
        places.push(caller.place)?;
    }
    Ok(places)
}

#[test]
fn callers_draw_each_number_once(rt: HostRuntime) -> Result<(), Fail> {
    let (desk, places) = Desk::open(rt.alloc(), PIECES as u64, MOST_SEATS)?;
    let mut callers = callers_at(rt.alloc(), &desk, places)?;
    work_all(&rt, &desk, &mut callers);
    assert!(rt; callers.len() == MOST_SEATS);
    assert!(rt; drew_each_once(&callers, PIECES));
    assert!(rt; callers.iter().all(|caller| caller.record.is_ascending()));
    assert!(rt;
        callers
            .iter()
            .all(|caller| caller.record.sees_no_less(504, 991))
    );
    let places = places_of(rt.alloc(), &desk, callers)?;
    assert!(rt; places.len() == MOST_SEATS);
    let totals = desk.close(places);
    assert_eq!(rt; totals.drawn, 1000);
    assert_eq!(rt; totals.met, Some(504));
    assert_eq!(rt; totals.unmet, Some(991));
    Ok(())
}
