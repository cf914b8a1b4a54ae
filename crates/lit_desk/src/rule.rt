//! The invariant of a desk's table, called its rule, and the steps that preserve it.

use crate::account::Account;
use atomic_table::{Join, Play, Seat, Split, Table, TableRule};
use std::alloc::Global;

/// What a desk was opened with.
#[derive(Clone, Copy)]
pub struct Terms {
    pub pieces: u64,
    pub seats: usize,
}

/// The rule of a desk.
pub(crate) struct Fair;

impl<S> TableRule<S, Account, Terms> for Fair {
    ghost use Rattle.lit_desk.specs.Internal.Rule.{IsFair};
    ghost use Rattle.lit_desk.specs.Accounts.{new_account};

    ghost holds = { λ terms s. IsFair terms s.words s.views };

    ghost first = { λ terms. new_account terms.seats };
}

/// A step that takes a ticket.
pub(crate) struct Draws;

impl<S> Play<S, Account> for Draws {
    ghost use Rattle.std.specs.Prelude.{◌≡◌};
    ghost use Rattle.lit_desk.specs.Internal.Steps.{Takes};

    ghost then = { λ step old found new. Takes old.0 found new.0 × (new.1 ≡ old.1) };
}

/// A step that tells a number in a class.
pub(crate) struct Tells;

impl<S> Play<S, Account> for Tells {
    ghost use Rattle.std.specs.Prelude.{◌≡◌};
    ghost use Rattle.lit_desk.specs.Internal.Steps.{Tells};

    ghost then = { λ step old found new. Tells step.word old.0 step.first new.0 × (new.1 ≡ old.1) };
}

/// A step that looks at the least number told in a class.
pub(crate) struct Looks;

impl<S> Play<S, Account> for Looks {
    ghost use Rattle.std.specs.Prelude.{◌≡◌};
    ghost use Rattle.lit_desk.specs.Internal.Steps.{Sees};

    ghost then = { λ step old found new. Sees step.word old.0 found new.0 × (new.1 ≡ old.1) };
}

/// A step that makes a seat which stands for no place.
pub(crate) struct Sits;

impl<S> Play<S, Account> for Sits {
    ghost use Rattle.std.specs.Prelude.{◌≡◌};
    ghost use Rattle.lit_desk.specs.Accounts.{new_account};

    ghost then = { λ step old found new. new.0 ≡ new_account 0 };
}

/// A seat where nothing was done yet gives one of its places to a new seat.
pub(crate) struct GivesPlace;

impl Split<Account> for GivesPlace {
    ghost use Rattle.std.specs.Prelude.{◌-◌};
    ghost use Rattle.lit_desk.specs.Accounts.{new_account};

    ghost left = { λ v. new_account (v.places - 1) };

    ghost right = { λ _. new_account 1 };
}

/// A seat takes over what another did, and stands for its places too.
pub(crate) struct Gathers;

impl Join<Account> for Gathers {
    ghost use Rattle.lit_desk.specs.Accounts.{new_account};
    ghost use Rattle.lit_desk.specs.Internal.Gathered.{merged_accounts};

    ghost both = { λ v w. merged_accounts w v };

    ghost spent = { new_account 0 };
}

pub(crate) type Board = Table<(), Account, Terms, Fair, Global>;

pub(crate) type DeskSeat = Seat<(), Account>;
