//! What holds of the relations and of parts. The functions do nothing: their contracts are theorems.

mod wide_events;

ghost use Rattle.std.specs.Prelude.{List};
ghost use Rattle.lit_paths.specs.declared.event.Event.{Event};
ghost use Rattle.lit_rel.specs.Broken.{BytesStayBroken, StaysBroken};
ghost use Rattle.lit_rel.specs.Growth.{GivenValuesAgree, GrowWithBytes, ValuesStay};
ghost use Rattle.lit_rel.specs.GuardedBytes.{RefusedBytesMakeFalse};
ghost use Rattle.lit_rel.specs.ByteReadList.{AreOfEvents};

pub use wide_events::{
    mixed_sizes_never_synchronize, never_reads_itself, typed_load_mixes_with_init_only,
    viewed_load_mixes,
};

/// Each byte read is of an event that reads, and of a byte of its range. None stands twice in the list.
#[tactic(auto, using(crate::proofs::ByteReadLemmas::are_of_events))]
pub fn byte_reads_are_of_events()
    ensures { (events : List Event) → AreOfEvents events }
{}

/// With more bytes given, reads-from, synchronizes-with, happens-before and the forbidden triples only grow, and that
/// the reads are coherent and tear free only goes from true to false.
#[tactic(auto, using(crate::proofs::GrowthLemmas::grow_with_bytes))]
pub fn relations_grow_with_bytes()
    ensures { GrowWithBytes }
{}

/// Once all bytes of a read are given, further bytes do not change its value.
#[tactic(auto, using(crate::proofs::GrowthLemmas::values_stay))]
pub fn values_stay()
    ensures { ValuesStay }
{}

/// The value of a read all of whose bytes are given is the same in all lists of sources that have these bytes.
pub fn given_values_agree()
    ensures { GivenValuesAgree }
{}

/// A part that is broken is broken with any sources more.
pub fn broken_parts_stay_broken()
    ensures { StaysBroken }
{}

/// Any bytes given that are broken are so with any bytes more, and in each list of sources that has them.
#[tactic(auto, using(crate::proofs::BrokenLemmas::bytes_stay_broken))]
pub fn bytes_stay_broken()
    ensures { BytesStayBroken }
{}

/// Where a guard refuses a source of a byte, whatever its read takes for its other bytes, a complete part with that source
/// has a guard that is false.
pub fn refused_bytes_make_guards_false()
    ensures { RefusedBytesMakeFalse }
{}
