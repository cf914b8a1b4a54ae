//! Three-valued answers: what the domains of a box decide before the search branches.

/// What the domains of a box say of a value that its sources have.
#[derive(Clone, Copy, Debug, PartialEq, Eq)]
pub enum Decided<T> {
    /// It is this one by any of them.
    Known(T),
    /// It depends on the byte read at this place, whose sources store several bytes.
    Open(usize),
}

impl Decided<bool> {
    ghost use Rattle.std.specs.Prelude.{◌≡◌};
    ghost use Rattle.lit_solve.specs.Internal.ConditionValues.{opposite_of};

    /// The value of the negation.
    pub(crate) fn opposite(self) -> Self
        ensures { result ≡ opposite_of self }
    {
        match self {
            Decided::Known(value) => Decided::Known(!value),
            Decided::Open(place) => Decided::Open(place),
        }
    }
}
