//! The litmus texts of these tests, with the whole report on each, byte for byte.

pub(crate) mod idle_events;
pub(crate) mod independent_reads;
pub(crate) mod many_choices;
pub(crate) mod paths;
pub(crate) mod reports;
pub(crate) mod sizes;
