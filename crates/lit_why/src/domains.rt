//! The domains that a search begins with: all candidates of each byte read.

ghost use Rattle.lit_paths.specs.Members.{IsCandidate};
ghost use Rattle.lit_solve.specs.Box.{events_on};
ghost use Rattle.lit_why.specs.Internal.Domains.{AreDomainsBy};

use lit_paths::{BYTE_READ_LIMIT, Combination};
use lit_rel::EventSet;
use lit_solve::{Domains, candidates_of};

/// All candidates of each byte read.
pub(crate) fn all_candidates(combination: &Combination<'_>) -> Domains
    ensures { AreDomainsBy combination.now (λ p w. IsCandidate (events_on combination.now) p.0 p.1 w) result }
{
    // Tells the prover that there are few byte reads, so that the array has room.
    let _events = combination.events();
    let mut domains = [EventSet::new(); BYTE_READ_LIMIT];
    for place in 0..combination.byte_reads().len() {
        domains[place] = candidates_of(combination, place);
    }
    domains
}
