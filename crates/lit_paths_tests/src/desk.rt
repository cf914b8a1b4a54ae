//! `lit_desk`, one place after the other.

ghost use Rattle.std.specs.Prelude.{◌≡◌, All, length};
ghost use Rattle.lit_desk.specs.Desk.{IsPlaceOf};

use lit_desk::{Class2, Desk, MOST_PIECES, MOST_SEATS, Place};
use std::process::Abort;
use std::test::Fail;

mod threads;

/// Asserts what the next draw of a place gives.
fn draws(rt: &impl Abort, desk: &Desk, place: &mut Place, wanted: Option<u64>)
    requires { IsPlaceOf desk.now place.old }
    ensures { IsPlaceOf desk.now place.new }
{
    assert_eq!(rt; desk.draw(place), wanted);
}

/// Asserts what a place finds told in a class.
fn finds(rt: &impl Abort, desk: &Desk, place: &mut Place, class: Class2, wanted: Option<u64>)
    requires { IsPlaceOf desk.now place.old }
    ensures { IsPlaceOf desk.now place.new }
{
    assert_eq!(rt; desk.look(place, class), wanted);
}

/// Asserts what the places of a desk did, all of them: how many numbers they drew, and the least told in each class.
fn did(
    rt: &impl Abort,
    desk: Desk,
    places: Vec<Place>,
    drawn: u64,
    least: (Option<u64>, Option<u64>),
)
    requires own { All (IsPlaceOf desk) places.items }
    requires all { length places.items ≡ desk.seats }
{
    let totals = desk.close(places);
    assert_eq!(rt; totals.drawn, drawn);
    assert_eq!(rt; totals.met, least.0);
    assert_eq!(rt; totals.unmet, least.1);
}

#[test]
fn one_place_draws_tells_and_looks(rt: HostRuntime) -> Result<(), Fail> {
    let (desk, mut places) = Desk::open(rt.alloc(), 2, 1)?;
    assert_eq!(rt; places.len(), 1);
    let place = &mut places[0];
    draws(&rt, &desk, place, Some(0));
    draws(&rt, &desk, place, Some(1));
    draws(&rt, &desk, place, None);
    draws(&rt, &desk, place, None);
    finds(&rt, &desk, place, Class2::Met, None);
    desk.tell(place, Class2::Met, 5);
    desk.tell(place, Class2::Met, 9);
    finds(&rt, &desk, place, Class2::Met, Some(5));
    finds(&rt, &desk, place, Class2::Unmet, None);
    did(&rt, desk, places, 2, (Some(5), None));
    Ok(())
}

#[test]
fn no_pieces_are_drawn(rt: HostRuntime) -> Result<(), Fail> {
    let (desk, mut places) = Desk::open(rt.alloc(), 0, 2)?;
    assert_eq!(rt; places.len(), 2);
    draws(&rt, &desk, &mut places[0], None);
    draws(&rt, &desk, &mut places[1], None);
    did(&rt, desk, places, 0, (None, None));
    Ok(())
}

#[test]
fn one_place_takes_all(rt: HostRuntime) -> Result<(), Fail> {
    let (desk, mut places) = Desk::open(rt.alloc(), 3, MOST_SEATS)?;
    assert_eq!(rt; places.len(), MOST_SEATS);
    let first = &mut places[0];
    draws(&rt, &desk, first, Some(0));
    draws(&rt, &desk, first, Some(1));
    draws(&rt, &desk, first, Some(2));
    draws(&rt, &desk, first, None);
    for i in 1..MOST_SEATS {
        draws(&rt, &desk, &mut places[i], None);
    }
    did(&rt, desk, places, 3, (None, None));
    Ok(())
}

#[test]
fn two_places_share_told(rt: HostRuntime) -> Result<(), Fail> {
    let (desk, mut places) = Desk::open(rt.alloc(), 0, 2)?;
    assert_eq!(rt; places.len(), 2);
    desk.tell(&mut places[0], Class2::Met, 5);
    finds(&rt, &desk, &mut places[1], Class2::Met, Some(5));
    did(&rt, desk, places, 0, (Some(5), None));
    Ok(())
}

#[test]
fn most_pieces_and_places(rt: HostRuntime) -> Result<(), Fail> {
    let (desk, mut places) = Desk::open(rt.alloc(), MOST_PIECES, MOST_SEATS)?;
    assert_eq!(rt; places.len(), MOST_SEATS);
    let last = &mut places[MOST_SEATS - 1];
    draws(&rt, &desk, last, Some(0));
    draws(&rt, &desk, last, Some(1));
    draws(&rt, &desk, last, Some(2));
    desk.tell(last, Class2::Unmet, u64::MAX - 1);
    did(
        &rt,
        desk,
        places,
        3,
        (None, Some(18_446_744_073_709_551_614)),
    );
    Ok(())
}
