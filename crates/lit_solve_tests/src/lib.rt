//! The tests of `lit_solve`, through its public calls.
#![tactic(auto)]

#[cfg(test)]
mod deep;
#[cfg(test)]
mod listed;
#[cfg(test)]
mod outcomes;
#[cfg(test)]
mod races;
#[cfg(test)]
mod solver;
