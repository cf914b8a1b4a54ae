//! Derivations, each of whose lines is checked.

use super::part_with;
use lit_paths::plan;
use lit_read::read;
use lit_rel::{Between, Part, Rows};
use lit_test_texts::{
    INDEPENDENT_READS, LOAD_BUFFERING_ATOMIC, READ_READ_COHERENCE_PLAIN, STORE_BUFFERING,
};
use lit_why::{DerivationLine, Reason, derivation};
use std::test::Fail;

/// Whether the line at a place, before another one, has these events.
fn has(lines: &[DerivationLine], place: usize, before_place: usize, events: (u8, u8)) -> bool {
    if place >= before_place {
        return false;
    }
    match lines.get(place) {
        Some(line) => (line.before, line.after) == events,
        None => false,
    }
}

/// Whether a relation has a pair.
fn holds(rows: &Rows, first: u8, second: u8) -> bool {
    let (first, second) = (usize::from(first), usize::from(second));
    first < rows.len() && second < rows.len() && rows.holds(first, second)
}

/// Whether an event may not stand between a source and its read.
fn forbids(between: &Between, source: u8, read: u8, other: u8) -> bool {
    let (source, read, other) = (usize::from(source), usize::from(read), usize::from(other));
    let len = between.len();
    source < len && read < len && other < len && between.forbids(source, read, other)
}

/// Whether a line, with its place, follows from the lines before it.
fn follows(part: &Part<'_>, lines: &[DerivationLine], place: usize, line: &DerivationLine) -> bool {
    let (before, after) = (line.before, line.after);
    match line.reason {
        Reason::HappensBefore => holds(&part.happens_before(), before, after),
        Reason::Joined { first, second } => match lines.get(first) {
            Some(one) => {
                has(lines, first, place, (before, one.after))
                    && has(lines, second, place, (one.after, after))
            }
            None => false,
        },
        Reason::BeforeSource { read, earlier } => {
            forbids(&part.between(), after, read, before)
                && has(lines, earlier, place, (before, read))
        }
        Reason::AfterRead { source, earlier } => {
            forbids(&part.between(), source, before, after)
                && has(lines, earlier, place, (source, after))
        }
    }
}

/// Whether a line cites the one at a place.
fn cites(line: &DerivationLine, place: usize) -> bool {
    match line.reason {
        Reason::HappensBefore => false,
        Reason::Joined { first, second } => first == place || second == place,
        Reason::BeforeSource { read: _, earlier } => earlier == place,
        Reason::AfterRead { source: _, earlier } => earlier == place,
    }
}

/// Whether each line follows from earlier ones, and is the last or cited by some line.
fn is_derivation(part: &Part<'_>, lines: &[DerivationLine]) -> bool {
    for (place, line) in lines.iter().enumerate() {
        let is_last = place + 1 == lines.len();
        if !follows(part, lines, place, line)
            || (!is_last && !lines.iter().any(|other| cites(other, place)))
        {
            return false;
        }
    }
    true
}

/// Texts with sources for all byte reads of their first combination, and how many lines there are up to which event before itself.
const DERIVED: [(&str, &[u8], Option<(usize, u8)>); 5] = [
    // A stores byte 0 (2) and loads 0 from byte 1 (3), B stores byte 1 (4) and loads 0 from byte 0 (5): each store comes after the
    // load that reads the event that made its byte. So 2, 3, 4, 5, 2: by two lines for each load's pair, one for each agent, and
    // three composed lines.
    (STORE_BUFFERING, &[1, 0], Some((9, 2))),
    (STORE_BUFFERING, &[4, 0], None),
    (READ_READ_COHERENCE_PLAIN, &[1, 0], None),
    // Each agent loads what the other stores after its own load.
    (LOAD_BUFFERING_ATOMIC, &[5, 3], Some((1, 2))),
    // C loads 1 from A's store (2), and then 0 from byte 1 (5), which B's store (3) has to follow; D loads 1 from that, and then 0
    // from byte 0 (7), which A's store has to follow. So 2, 5, 3, 7, 2, as above.
    (INDEPENDENT_READS, &[2, 1, 3, 0], Some((9, 2))),
];

#[test]
fn derivations_can_be_checked(rt: HostRuntime) -> Result<(), Fail> {
    for (text, sources, wanted) in DERIVED {
        let test = read(rt.alloc(), text.as_bytes())?;
        let plan = plan(rt.alloc(), &test)?;
        assert!(rt; plan.combinations() > 0);
        let part = part_with(&rt, &plan, 0, sources);
        let found = match derivation(rt.alloc(), &part.happens_before(), &part.between())? {
            Some(lines) => {
                assert!(rt; is_derivation(&part, lines.as_slice()), "of {text}");
                let end = lines.as_slice().last().ok_or("no line")?;
                assert_eq!(rt; end.before, end.after, "of {text}");
                Some((lines.len(), end.before))
            }
            None => None,
        };
        assert_eq!(rt; found, wanted, "of {text}");
    }
    Ok(())
}
