//! The two classes of a desk.

/// The class in which a number is told.
#[derive(Clone, Copy, Debug, PartialEq, Eq)]
pub enum Class2 {
    Met,
    Unmet,
}
