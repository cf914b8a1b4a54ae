//! A gate that looks at the desk: what a hunt tells of a piece is not told before the piece is entered.

ghost use Rattle.std.specs.Prelude.{◌<◌, ◌≤◌};
ghost use Rattle.lit_desk.specs.Desk.{IsPlaceOf};
ghost use Rattle.lit_share.specs.declared.limits.TheConstants.{CUT_LIMIT};

use lit_desk::{Class2, Desk, Place};
use lit_paths::{Plan, plan};
use lit_read::read;
use lit_share::{Gate, hunt};
use lit_test_texts::{EQUAL_STORES, LOAD_BUFFERING};
use std::alloc::AllocGlobal;
use std::process::Abort;
use std::sync::atomic::{AtomicU64, Ordering};
use std::test::Fail;

/// A place that does nothing but look at its desk.
#[derive(Drop)]
struct Onlooker<'d> {
    desk: &'d Desk,
    place: Place,
    ghost own: { IsPlaceOf desk.now place },
}

/// The least number told in each class.
#[derive(Clone, Copy, Debug, PartialEq, Eq)]
struct Seen {
    met: Option<u64>,
    unmet: Option<u64>,
}

impl Onlooker<'_> {
    fn look(&mut self) -> Seen {
        let met = self.desk.look(&mut self.place, Class2::Met);
        let unmet = self.desk.look(&mut self.place, Class2::Unmet);
        Seen { met, unmet }
    }
}

/// Looks at the desk as each piece is entered.
#[derive(Drop)]
struct Looking<'d> {
    /// What has to be seen as the pieces are entered.
    wanted: &'d [Seen],
    /// The pieces where it was, as a set of bits.
    agreed: AtomicU64,
    calls: AtomicU64,
}

impl<'d> Gate for Looking<'d> {
    type Pass = Onlooker<'d>;

    fn at(&self, pass: &mut Onlooker<'d>, _worker: usize, piece: u64) {
        self.calls.fetch_add(1, Ordering::SeqCst);
        let seen = pass.look();
        if self.wanted.get(piece as usize) == Some(&seen) {
            self.agreed
                .fetch_or(1u64.wrapping_shl((piece % 64) as u32), Ordering::SeqCst);
        }
    }
}

/// That a call of `hunt` enters three pieces, each once, and that this is seen from another place as they are entered.
fn hunts_as_seen(
    rt: &(impl Abort + AllocGlobal),
    plan: &Plan<'_>,
    cut: u64,
    wanted: &[Seen; 3],
) -> Result<(), Fail>
    requires { (0 < cut) × (cut ≤ CUT_LIMIT) }
{
    let (desk, mut places) = Desk::open(rt.alloc(), plan.total().div_ceil(cut), 2)?;
    let (Some(other), Some(place)) = (places.pop(), places.pop()) else {
        panic!(rt; "the desk has two places")
    };
    let gate = Looking {
        wanted,
        agreed: AtomicU64::new(0),
        calls: AtomicU64::new(0),
    };
    let onlooker = Onlooker {
        desk: &desk,
        place: other,
    };
    hunt(plan, cut, &desk, place, &gate, onlooker, 0);
    assert_eq!(rt; gate.calls.load(Ordering::SeqCst), 3);
    assert_eq!(rt; gate.agreed.load(Ordering::SeqCst), 0b111);
    Ok(())
}

/// The first of three pieces tells choice 3 in one class, and the last one choice 8 in the other.
const LOAD_BUFFERING_SEEN: [Seen; 3] = [
    Seen {
        met: None,
        unmet: None,
    },
    Seen {
        met: Some(3),
        unmet: None,
    },
    Seen {
        met: Some(3),
        unmet: None,
    },
];

#[test]
fn hunt_of_load_buffering_tells_behind_the_gate(rt: HostRuntime) -> Result<(), Fail> {
    let test = read(rt.alloc(), LOAD_BUFFERING.as_bytes())?;
    let plan = plan(rt.alloc(), &test)?;
    hunts_as_seen(&rt, &plan, 4, &LOAD_BUFFERING_SEEN)
}

/// Each of three pieces is one choice; the first tells it in one class, and the second in the other.
const EQUAL_STORES_SEEN: [Seen; 3] = [
    Seen {
        met: None,
        unmet: None,
    },
    Seen {
        met: None,
        unmet: Some(0),
    },
    Seen {
        met: Some(1),
        unmet: Some(0),
    },
];

#[test]
fn hunt_of_equal_stores_tells_behind_the_gate(rt: HostRuntime) -> Result<(), Fail> {
    let test = read(rt.alloc(), EQUAL_STORES.as_bytes())?;
    let plan = plan(rt.alloc(), &test)?;
    hunts_as_seen(&rt, &plan, 1, &EQUAL_STORES_SEEN)
}
