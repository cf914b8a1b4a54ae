//! The tests of `lit_search` and `lit_share`, a module for each, through their public calls.
#![tactic(auto)]

#[cfg(test)]
mod search;
#[cfg(test)]
mod share;
