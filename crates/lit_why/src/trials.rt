//! Whether sources in the domains of a box can try a class.

ghost use Rattle.std.specs.Prelude.{◌<◌, length};
ghost use Rattle.lit_solve.specs.Box.{HasEmptyDomain, IsBox, box_with, events_on};
ghost use Rattle.lit_why.specs.Internal.Trials.{AreRefused, IsReadRefused, MayTry};

use lit_rel::has_false_guard;
use lit_solve::{Decided, Domains, Problem};
use lit_valid::Class;

/// Whether a guard on a read, by event number, is false of the read's value, where the domains leave the read one value.
fn is_read_refused(problem: &Problem<'_>, domains: &Domains, read: usize) -> bool
    requires read { read < length (events_on problem.now) }
    requires is_box { IsBox (box_with problem.now domains.now) }
    requires some { ¬ HasEmptyDomain (box_with problem.now domains.now) }
    ensures { IsReadRefused (box_with problem.now domains.now) read result }
{
    // Tells the prover that the number of an event fits in a byte.
    let _events = problem.combination().events();
    match problem.read_value(domains, read as u8) {
        Decided::Known(value) => has_false_guard(problem.combination(), Some(read), value),
        Decided::Open(_) => false,
    }
}

/// Whether a guard of a path is false: of 0 in a register that was not written, or of a read to which the domains leave one value.
fn are_refused(problem: &Problem<'_>, domains: &Domains) -> bool
    requires is_box { IsBox (box_with problem.now domains.now) }
    requires some { ¬ HasEmptyDomain (box_with problem.now domains.now) }
    ensures { AreRefused (box_with problem.now domains.now) result }
{
    if has_false_guard(problem.combination(), None, 0) {
        return true;
    }
    for read in 0..problem.combination().events().len() {
        if is_read_refused(problem, domains, read) {
            return true;
        }
    }
    false
}

/// Whether sources in the domains can try a class. `false` says that none do; `true` says that all do, unless a byte is undecided.
pub(crate) fn can_try(problem: &Problem<'_>, domains: &Domains, class: Class) -> bool
    requires is_box { IsBox (box_with problem.now domains.now) }
    requires some { ¬ HasEmptyDomain (box_with problem.now domains.now) }
    ensures { MayTry (box_with problem.now domains.now) class result }
{
    if are_refused(problem, domains) {
        return false;
    }
    match problem.prospect_of(domains, class) {
        Decided::Known(false) => false,
        Decided::Known(true) | Decided::Open(_) => true,
    }
}
