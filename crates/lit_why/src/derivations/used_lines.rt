//! The used lines of a derivation: those that its last line rests on (decision 39).

ghost use Rattle.std.specs.Prelude.{◌≡◌, ◌⊎◌, ◌↔◌, ℕ, ◌<◌, IfOk, List, length, slice_index};
ghost use Rattle.lit_why.specs.Derivation.{Cites, EndsInCycle};
ghost use Rattle.lit_why.specs.Internal.UsedLines.{AreMarks, AreMoved, CiteEarlier, IsMarked, AreUsedLines, moved_reason};

use crate::derivations::lines::{DerivationLine, Reason};
use std::alloc::{AllocError, Global};

/// Marks a place.
fn mark(marks: &mut Vec<bool>, place: usize)
    requires { place < length marks.old.items }
    ensures len { length marks.new.items ≡ length marks.old.items }
    ensures marked { (k : ℕ) → IsMarked marks.new.items k ↔ (IsMarked marks.old.items k ⊎ (place ≡ k)) }
{
    marks[place] = true;
}

/// Marks the places that a reason cites.
fn mark_cited(marks: &mut Vec<bool>, reason: Reason)
    requires { (k : ℕ) → Cites reason k → k < length marks.old.items }
    ensures len { length marks.new.items ≡ length marks.old.items }
    ensures marked { (k : ℕ) → IsMarked marks.new.items k ↔ (IsMarked marks.old.items k ⊎ Cites reason k) }
{
    match reason {
        Reason::HappensBefore => {}
        Reason::Joined { first, second } => {
            mark(marks, first);
            mark(marks, second);
        }
        Reason::BeforeSource { read: _, earlier } => mark(marks, earlier),
        Reason::AfterRead { source: _, earlier } => mark(marks, earlier),
    }
}

/// Marks the last line, and each line that a marked line cites.
fn marks_of(alloc: Global, lines: &[DerivationLine]) -> Result<Vec<bool>, AllocError>
    requires some { 0 < length lines.now }
    requires earlier { CiteEarlier lines.now }
    ensures { IfOk result (λ marks. AreMarks lines.now marks.items) }
{
    let mut marks = vec![in alloc; false; lines.len()]?;
    // From the last line back: lines cite earlier ones only, so each is marked before its turn.
    let mut left = lines.len();
    marks[left - 1] = true;
    while left > 0 {
        left -= 1;
        if marks[left] {
            mark_cited(&mut marks, lines[left].reason);
        }
    }
    Ok(marks)
}

/// The new place of a line.
fn place_at(places: &[usize], place: usize) -> usize
    requires { place < length places.now }
    ensures { result ≡ slice_index places.now place }
{
    places[place]
}

/// The reason, with each place that it cites read in a list of new places.
fn moved(reason: Reason, places: &[usize]) -> Reason
    requires { (k : ℕ) → Cites reason k → k < length places.now }
    ensures { result ≡ moved_reason places.now reason }
{
    match reason {
        Reason::HappensBefore => Reason::HappensBefore,
        Reason::Joined { first, second } => Reason::Joined {
            first: place_at(places, first),
            second: place_at(places, second),
        },
        Reason::BeforeSource { read, earlier } => Reason::BeforeSource {
            read,
            earlier: place_at(places, earlier),
        },
        Reason::AfterRead { source, earlier } => Reason::AfterRead {
            source,
            earlier: place_at(places, earlier),
        },
    }
}

/// The lines that are marked, in order, each with its citations moved.
fn moved_lines(
    alloc: Global,
    lines: &[DerivationLine],
    marks: &[bool],
) -> Result<Vec<DerivationLine>, AllocError>
    requires marks { AreMarks lines.now marks.now }
    requires earlier { CiteEarlier lines.now }
    ensures { IfOk result (λ used. (places : List ℕ) × AreMoved lines.now marks.now (length lines.now) places used.items) }
{
    let mut used = Vec::new(alloc);
    let mut places = Vec::new(alloc);
    for (place, line) in lines.iter().enumerate() {
        let reason = line.reason;
        places.push(used.len())?;
        if marks[place] {
            used.push(DerivationLine {
                before: line.before,
                after: line.after,
                reason: moved(reason, places.as_slice()),
            })?;
        }
    }
    Ok(used)
}

/// The lines that the last line rests on. The lines end in a cycle, and each cites earlier lines only.
pub(crate) fn only_used(
    alloc: Global,
    lines: &[DerivationLine],
) -> Result<Vec<DerivationLine>, AllocError>
    requires ends { EndsInCycle lines.now }
    requires earlier { CiteEarlier lines.now }
    ensures { IfOk result (λ used. AreUsedLines lines.now used.items) }
{
    let marks = marks_of(alloc, lines)?;
    moved_lines(alloc, lines, marks.as_slice())
}
