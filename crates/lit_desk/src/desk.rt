//! The desk: a shared counter that gives out numbers, and a shared minimum for each class.

ghost use Rattle.std.specs.Prelude.{◌≡◌, ◌≢◌, ◌<◌, ◌≤◌, ◌↔◌, ◌⊎◌, ℕ, [], ◌∷◌, ◌++◌, length, All, AllPairs};
ghost use Rattle.std.specs.Prelude.{Any, Contains, IfSome, IfNone, IfOk, None, replicate};

use crate::class::Class2;
use crate::fault::DeskFault;
use crate::limits::{MOST_PIECES, MOST_SEATS};
use crate::place::Place;
use crate::rule::{Board, DeskSeat, Draws, Gathers, GivesPlace, Looks, Sits, Tells, Terms};
use crate::words::{MET_WORD, NONE_TOLD, TICKET_WORD, UNMET_WORD, number_in_word, word_of_class};
use atomic_table::Table;
use std::alloc::Global;
use std::marker::Model;

/// A desk that gives out the numbers below its count of pieces, and carries the least number told in each class.
/// Threads share it by reference, each with a place of its own.
#[derive(Drop)]
pub struct Desk {
    table: Board,
    terms: Terms,
}

/// What all places of a desk did: how many numbers were drawn, and the least told in each class.
#[derive(Clone, Copy, Debug, PartialEq, Eq)]
pub struct Totals {
    pub drawn: u64,
    pub met: Option<u64>,
    pub unmet: Option<u64>,
}

impl Model for Desk {
    ghost use Rattle.lit_desk.specs.Desk.{DeskName};

    ghost Value = { DeskName };

    ghost use Rattle.lit_desk.specs.Internal.Opened.{name_of, IsOpen};

    ghost view = { name_of };

    ghost invariant = { IsOpen };
}

impl Desk {
    ghost use Rattle.lit_desk.specs.Desk.{IsPlaceOf, IsDone, IsLeastOf, new_place, draws_of, told_by, seen_by};
    ghost use Rattle.lit_desk.specs.Desk.{with_ticket, with_told, with_seen, all_draws, all_told, all_seen};
    ghost use Rattle.lit_desk.specs.Internal.Gathered.{gathered_account};

    /// Opens a desk of `pieces` numbers with `seats` places. Each place gets its seat by a split of the first one.
    pub fn open(alloc: Global, pieces: u64, seats: usize) -> Result<(Desk, Vec<Place>), DeskFault>
        requires pieces { pieces ≤ MOST_PIECES }
        requires seats { (0 < seats) × (seats ≤ MOST_SEATS) }
        ensures desk { IfOk result (λ r. (r.0.pieces ≡ pieces) × (r.0.seats ≡ seats)) }
        ensures count { IfOk result (λ r. length r.1.items ≡ seats) }
        ensures own { IfOk result (λ r. All (IsPlaceOf r.0) r.1.items) }
        ensures new { IfOk result (λ r. r.1.items ≡ replicate seats (new_place r.0)) }
    {
        let terms = Terms { pieces, seats };
        let mut places = Vec::with_capacity(alloc, seats)?;
        let (table, mut seat) = Table::of_words(alloc, &[0, NONE_TOLD, NONE_TOLD], &terms)?;
        for _ in 1..seats {
            let other = table.shared.split_seat::<GivesPlace>(&mut seat);
            places.push_reserved(Place::new(other, terms));
        }
        places.push_reserved(Place::new(seat, terms));
        Ok((Desk { table, terms }, places))
    }

    /// A number that no other place draws, above all that this place drew. After `None` the place always gets `None`.
    pub fn draw(&self, place: &mut Place) -> Option<u64>
        requires { IsPlaceOf self.now place.old }
        ensures below { IfSome result (λ n. n < self.now.pieces) }
        ensures above { IfSome result (λ n. All (λ m. m < n) (draws_of place.old)) }
        ensures joins { IfSome result (λ n. draws_of place.new ≡ draws_of place.old ++ n ∷ []) }
        ensures taken { IfSome result (λ n. place.new ≡ with_ticket place.old n) }
        ensures done { IfNone result (IsDone place.new × (draws_of place.new ≡ draws_of place.old)) }
        ensures late { IfNone result ((place.new ≡ place.old) ⊎ ((n : ℕ) × (self.now.pieces ≤ n) × (place.new ≡ with_ticket place.old n))) }
        ensures stays { IsDone place.old → (result ≡ None) × (place.new ≡ place.old) }
        ensures place { IsPlaceOf self.now place.new }
    {
        // A place takes at most one ticket past the last piece, so that the counter never overflows.
        if place.is_done {
            return None;
        }
        let number = self
            .table
            .shared
            .fetch_add::<Draws>(&mut place.seat, TICKET_WORD, 1);
        if number < self.terms.pieces {
            Some(number)
        } else {
            place.is_done = true;
            None
        }
    }

    /// Tells a number in a class.
    pub fn tell(&self, place: &mut Place, class: Class2, number: u64)
        requires place { IsPlaceOf self.now place.old }
        requires number { number < u64.MAX }
        ensures { place.new ≡ with_told class place.old number }
    {
        self.table
            .shared
            .fetch_min::<Tells>(&mut place.seat, word_of_class(class), number);
    }

    /// A number that some place told in a class, no higher than any that this place told or saw there; `None` only if this place told
    /// and saw none there. That some place told it is a clause of `close`.
    pub fn look(&self, place: &mut Place, class: Class2) -> Option<u64>
        requires { IsPlaceOf self.now place.old }
        ensures seen { IfSome result (λ n. place.new ≡ with_seen class place.old n) }
        ensures least { IfSome result (λ n. All (λ m. n ≤ m) (told_by class place.old) × All (λ m. n ≤ m) (seen_by class place.old)) }
        ensures none { IfNone result ((place.new ≡ place.old) × (told_by class place.old ≡ []) × (seen_by class place.old ≡ [])) }
        ensures place { IsPlaceOf self.now place.new }
    {
        let word = self
            .table
            .shared
            .load::<Looks>(&mut place.seat, word_of_class(class));
        number_in_word(word)
    }

    /// Closes the desk with all its places.
    pub fn close(self, places: Vec<Place>) -> Totals
        requires own { All (IsPlaceOf self) places.items }
        requires all { length places.items ≡ self.seats }
        ensures once { AllPairs (λ m n. m ≢ n) (all_draws places.items) }
        ensures drawn { (n : ℕ) → Contains (all_draws places.items) n ↔ (n < result.drawn) }
        ensures pieces { Any IsDone places.items → result.drawn ≡ self.pieces }
        ensures met { IsLeastOf (all_told Class2.Met places.items) result.met }
        ensures unmet { IsLeastOf (all_told Class2.Unmet places.items) result.unmet }
        ensures seen { (class : Class2) → All (Contains (all_told class places.items)) (all_seen class places.items) }
    {
        let seat = self.gather(places);
        let Desk { table, terms } = self;
        let closed = table.close_with(seat);
        let totals = Totals {
            // A place may take one ticket past the last piece, which is no draw.
            drawn: closed.word(TICKET_WORD).min(terms.pieces),
            met: number_in_word(closed.word(MET_WORD)),
            unmet: number_in_word(closed.word(UNMET_WORD)),
        };
        closed.free();
        totals
    }

    /// A seat that stands for all these places, with all that they did. It begins with a seat that stands for none (decision 19).
    fn gather(&self, mut places: Vec<Place>) -> DeskSeat
        requires { All (IsPlaceOf self.now) places.items }
        ensures table { result.table_id ≡ self.now.table }
        ensures gathered { result.me.0 ≡ gathered_account places.items }
        ensures places { result.me.0.places ≡ length places.items }
    {
        let mut all = self.table.shared.load_new_seat::<Sits>(TICKET_WORD).1;
        while let Some(place) = places.pop() {
            let Place {
                seat,
                terms: _,
                is_done: _,
            } = place;
            self.table.shared.join_seat::<Gathers>(&mut all, seat);
        }
        all
    }
}
