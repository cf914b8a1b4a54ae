//! What the model says of small executions with accesses of two bytes. The functions do nothing: their contracts are theorems.

ghost use Rattle.lit_rel.specs.WideEvents.{MixedSizesNeverSynchronize, NeverReadsItself, TypedLoadMixesWithInitOnly, ViewedLoadMixes};

/// Store buffering with stores of two bytes and loads of one: nothing synchronizes.
pub fn mixed_sizes_never_synchronize()
    ensures { MixedSizesNeverSynchronize }
{}

/// Tear free reads allow no load of two bytes through a typed array to mix two stores of its range, but they allow it to
/// mix one of them with init.
#[tactic(auto, using(crate::proofs::WideLemmas::typed_load_mixes_with_init_only))]
pub fn typed_load_mixes_with_init_only()
    ensures { TypedLoadMixesWithInitOnly }
{}

/// Tear free reads allow a load of two bytes through a DataView to mix two stores of its range.
#[tactic(auto, using(crate::proofs::WideLemmas::viewed_load_mixes))]
pub fn viewed_load_mixes()
    ensures { ViewedLoadMixes }
{}

/// No read-modify-write is a source of itself.
pub fn never_reads_itself()
    ensures { NeverReadsItself }
{}
