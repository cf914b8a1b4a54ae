//! The next line of a derivation: a precedence that follows from earlier lines and is not known yet.

ghost use Rattle.std.specs.Prelude.{◌≡◌, ℕ, ◌<◌, MatchOption};
ghost use Rattle.lit_rel.specs.Between.{Forbids};
ghost use Rattle.lit_rel.specs.EventSet.{HasEvent};
ghost use Rattle.lit_rel.specs.Rows.{Holds, rows_len};
ghost use Rattle.lit_why.specs.Derivation.{IsLineOf};
ghost use Rattle.lit_why.specs.Internal.Deriving.{HasForced, HasJoined, HasLine, HasLines, IsNewLine, IsOfPair, NoTriple};

use crate::derivations::lines::{DerivationLine, Reason};
use lit_rel::{Between, EventSet, Pair, Rows};

/// The place of a line that has one event before another. The lines have one.
fn place_of(lines: &[DerivationLine], before: usize, after: usize) -> usize
    requires { HasLine lines.now before after }
    ensures { IsLineOf lines.now result before after }
{
    for (place, line) in lines.iter().enumerate() {
        if usize::from(line.before) == before && usize::from(line.after) == after {
            return place;
        }
    }
    lines.len()
}

/// The least event of a set that is not in another.
fn first_lacking(set: EventSet, there: EventSet) -> Option<usize>
    ensures { MatchOption result ((e : ℕ) → HasEvent set e → HasEvent there e) (λ event. HasEvent set event × ¬ HasEvent there event) }
{
    match set.difference(there).split_first() {
        Some((event, _)) => Some(event),
        None => None,
    }
}

/// A new line from `first`, composed of two lines.
fn joined_from(
    lines: &[DerivationLine],
    old: &Rows,
    known: &Rows,
    first: usize,
) -> Option<DerivationLine>
    requires same { rows_len known.now ≡ rows_len old.now }
    requires lines { HasLines lines.now (Holds old.now) }
    requires first { first < rows_len old.now }
    ensures { MatchOption result ((m d : ℕ) → Holds old.now first m → Holds old.now m d → Holds known.now first d)
        (IsNewLine (rows_len old.now) NoTriple (Holds known.now) lines.now) }
{
    let there = known.successors(first);
    for middle in 0..old.len() {
        if old.holds(first, middle) {
            if let Some(last) = first_lacking(old.successors(middle), there) {
                return Some(DerivationLine {
                    before: first as u8,
                    after: last as u8,
                    reason: Reason::Joined {
                        first: place_of(lines, first, middle),
                        second: place_of(lines, middle, last),
                    },
                });
            }
        }
    }
    None
}

/// A new line from any event, composed of two lines.
fn joined(lines: &[DerivationLine], old: &Rows, known: &Rows) -> Option<DerivationLine>
    requires same { rows_len known.now ≡ rows_len old.now }
    requires lines { HasLines lines.now (Holds old.now) }
    ensures { MatchOption result (HasJoined (Holds old.now) (Holds known.now))
        (IsNewLine (rows_len old.now) NoTriple (Holds known.now) lines.now) }
{
    for first in 0..old.len() {
        if let Some(line) = joined_from(lines, old, known, first) {
            return Some(line);
        }
    }
    None
}

/// A new line that has a read before an event: the event comes after the source, and may not stand between the source and the read.
fn after_read(
    lines: &[DerivationLine],
    old: &Rows,
    known: &Rows,
    pair: &Pair,
) -> Option<DerivationLine>
    requires same { rows_len known.now ≡ rows_len old.now }
    requires lines { HasLines lines.now (Holds old.now) }
    requires source { pair.now.source < rows_len old.now }
    requires read { pair.now.read < rows_len old.now }
    ensures { MatchOption result ((v : ℕ) → HasEvent pair.now.others v → Holds old.now pair.now.source v → Holds known.now pair.now.read v)
        (IsNewLine (rows_len old.now) (IsOfPair (rows_len old.now) pair.now) (Holds known.now) lines.now) }
{
    let (source, read) = (usize::from(pair.source), usize::from(pair.read));
    let later = pair.others.intersection(old.successors(source));
    match first_lacking(later, known.successors(read)) {
        Some(other) => Some(DerivationLine {
            before: pair.read,
            after: other as u8,
            reason: Reason::AfterRead {
                source: pair.source,
                earlier: place_of(lines, source, other),
            },
        }),
        None => None,
    }
}

/// A new line that has an event before a source: the event comes before the read, and may not stand between the source and the read.
fn before_source(
    lines: &[DerivationLine],
    old: &Rows,
    known: &Rows,
    pair: &Pair,
) -> Option<DerivationLine>
    requires same { rows_len known.now ≡ rows_len old.now }
    requires lines { HasLines lines.now (Holds old.now) }
    requires source { pair.now.source < rows_len old.now }
    requires read { pair.now.read < rows_len old.now }
    ensures { MatchOption result ((v : ℕ) → HasEvent pair.now.others v → Holds old.now v pair.now.read → Holds known.now v pair.now.source)
        (IsNewLine (rows_len old.now) (IsOfPair (rows_len old.now) pair.now) (Holds known.now) lines.now) }
{
    let (source, read) = (usize::from(pair.source), usize::from(pair.read));
    for other in 0..old.len() {
        if pair.others.contains(other) && old.holds(other, read) && !known.holds(other, source) {
            return Some(DerivationLine {
                before: other as u8,
                after: pair.source,
                reason: Reason::BeforeSource {
                    read: pair.read,
                    earlier: place_of(lines, other, read),
                },
            });
        }
    }
    None
}

/// A new line by a forbidden triple of one source and its read.
fn forced_by(
    lines: &[DerivationLine],
    old: &Rows,
    known: &Rows,
    pair: &Pair,
) -> Option<DerivationLine>
    requires same { rows_len known.now ≡ rows_len old.now }
    requires lines { HasLines lines.now (Holds old.now) }
    requires source { pair.now.source < rows_len old.now }
    requires read { pair.now.read < rows_len old.now }
    ensures { MatchOption result (HasForced (IsOfPair (rows_len old.now) pair.now) (Holds old.now) (Holds known.now))
        (IsNewLine (rows_len old.now) (IsOfPair (rows_len old.now) pair.now) (Holds known.now) lines.now) }
{
    match after_read(lines, old, known, pair) {
        Some(line) => Some(line),
        None => before_source(lines, old, known, pair),
    }
}

/// A new line by any forbidden triple.
fn forced(
    lines: &[DerivationLine],
    old: &Rows,
    known: &Rows,
    between: &Between,
) -> Option<DerivationLine>
    requires same { rows_len known.now ≡ rows_len old.now }
    requires len { rows_len old.now ≡ between.now.len }
    requires lines { HasLines lines.now (Holds old.now) }
    ensures { MatchOption result (HasForced (Forbids between.now) (Holds old.now) (Holds known.now))
        (IsNewLine (rows_len old.now) (Forbids between.now) (Holds known.now) lines.now) }
{
    for pair in between.pairs() {
        if let Some(line) = forced_by(lines, old, known, pair) {
            return Some(line);
        }
    }
    None
}

/// A new line: it follows from old pairs, each of which has a line, and its own pair is not known.
pub(crate) fn next_line(
    lines: &[DerivationLine],
    old: &Rows,
    known: &Rows,
    between: &Between,
) -> Option<DerivationLine>
    requires same { rows_len known.now ≡ rows_len old.now }
    requires len { rows_len old.now ≡ between.now.len }
    requires lines { HasLines lines.now (Holds old.now) }
    ensures { MatchOption result
        (HasForced (Forbids between.now) (Holds old.now) (Holds known.now) × HasJoined (Holds old.now) (Holds known.now))
        (IsNewLine (rows_len old.now) (Forbids between.now) (Holds known.now) lines.now) }
{
    match forced(lines, old, known, between) {
        Some(line) => Some(line),
        None => joined(lines, old, known),
    }
}
