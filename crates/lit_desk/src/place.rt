//! The place of one thread at a desk.

ghost use Rattle.std.specs.Prelude.{◌≡◌, []};

use crate::rule::{DeskSeat, Terms};
use std::marker::Model;

/// A place at a desk. A contract sees its desk, and the tickets that it took, what it told and what it saw.
#[derive(Drop)]
pub struct Place {
    pub(crate) seat: DeskSeat,
    pub(crate) terms: Terms,
    pub(crate) is_done: bool,
}

impl Model for Place {
    ghost use Rattle.lit_desk.specs.Desk.{PlaceLists};

    ghost Value = { PlaceLists };

    ghost use Rattle.lit_desk.specs.Internal.Place.{place_of, IsSound};

    ghost view = { place_of };

    ghost invariant = { IsSound };
}

impl Place {
    ghost use Rattle.std.specs.Prelude.{◌≡◌, []};
    ghost use Rattle.lit_desk.specs.Desk.{new_place, desk_name};
    ghost use Rattle.lit_desk.specs.Accounts.{new_account};

    /// A place where nothing was done yet.
    pub(crate) fn new(seat: DeskSeat, terms: Terms) -> Place
        requires { (seat.me.0 ≡ new_account 1) × (seat.me.1 ≡ []) }
        ensures { result ≡ new_place (desk_name seat.table_id terms.pieces terms.seats) }
    {
        Place {
            seat,
            terms,
            is_done: false,
        }
    }
}
