//! The tests of `lit_rel` and `lit_order`, a module for each, and `finders` on parts of whole tests, through their public calls.
#![tactic(auto)]

#[cfg(test)]
mod finders;
#[cfg(test)]
mod order;
#[cfg(test)]
mod rel;
