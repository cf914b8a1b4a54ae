//! The tests of `lit_why`, through its public calls.
#![tactic(auto)]

#[cfg(test)]
mod attempts;
#[cfg(test)]
mod choices;
#[cfg(test)]
mod covers;
#[cfg(test)]
mod mixing;
#[cfg(test)]
mod race;
#[cfg(test)]
mod why;
