//! What `jslit-why` answers.

ghost use Rattle.std.specs.Prelude.{◌≡◌, ◌≢◌, ◌⊎◌, ◌≤◌, ◌<◌, true, false, None, IfNone, IfSome};
ghost use Rattle.jslit_embed.specs.Handed.{HandsNothing, HandsSome};
ghost use Rattle.jslit_embed.specs.Why.{AsksFor, IsQuestionOf, IsRefusalOn, IsWhyStatus, MayNotAsk};
ghost use Rattle.lit_reason.specs.Explained.{IsReasonOn};
ghost use Rattle.lit_reason.specs.declared.question.TheConstants.{MOST_LIMIT};

use crate::handing::{hand_nothing, hand_out, hand_said};
use jslit::RunFault;
use lit_reason::{Asked, Class, MOST, MOST_LIMIT, Question, ReasonFault, are_words, explain};
use std::alloc::Global;
use std::str;

/// The number of a question: an outcome that meets the condition.
const MET: u8 = 0;

/// An outcome that doesn't.
const UNMET: u8 = 1;

/// A data race.
const RACE: u8 = 2;

/// The choice with a number.
const CHOICE: u8 = 3;

/// The choice that words select.
const WORDS: u8 = 4;

/// The question with a number, if there is one, and words for it are such words.
fn question_of(number: u8, choice: u64, words: &[u8]) -> Option<Question<'_>>
    ensures asked { IfSome result (IsQuestionOf number choice words.now) }
    ensures none { IfNone result (4 ≤ number) }
{
    match number {
        MET => Some(Question::InClass(Class::Met)),
        UNMET => Some(Question::InClass(Class::Unmet)),
        RACE => Some(Question::Race),
        CHOICE => Some(Question::OfChoice(choice)),
        WORDS => match str::from_utf8(words) {
            Ok(words) if are_words(words) => Some(Question::OfSources(words)),
            _ => None,
        },
        _ => None,
    }
}

/// How many attempts are looked at: as many as `jslit-why` looks at where 0 are asked for; none where too many are.
fn most_of(most: usize) -> Option<usize>
    ensures { IfNone result (MOST_LIMIT < most) }
{
    if most == 0 {
        Some(MOST)
    } else if most <= MOST_LIMIT {
        Some(most)
    } else {
        None
    }
}

/// What is asked, where it can be.
pub(crate) fn asked_of<'a>(
    number: u8,
    choice: u64,
    words: &'a [u8],
    condition: &'a [u8],
    most: usize,
    json: bool,
) -> Option<Asked<'a>>
    ensures asked { IfSome result (AsksFor number choice words.now condition.now) }
    ensures none { IfNone result (MayNotAsk number condition.now most) }
{
    let condition = match condition {
        [] => None,
        bytes => Some(str::from_utf8(bytes).ok()?),
    };
    Some(Asked {
        question: question_of(number, choice, words)?,
        condition,
        most: most_of(most)?,
        json,
    })
}

/// Hands out the answer to a question on a text, or the line that refuses the text.
pub(crate) fn why(
    alloc: Global,
    text: &[u8],
    asked: &Asked<'_>,
    out: &mut [u8],
    length: &mut usize,
) -> u8
    ensures status { IsWhyStatus result }
    ensures answered { result ≡ 0 → HandsSome (IsReasonOn text.now asked.now true) out.old out.new length.new }
    ensures refused { result ≡ 1 → HandsSome (IsReasonOn text.now asked.now false) out.old out.new length.new
        ⊎ HandsSome (IsRefusalOn text.now asked.now) out.old out.new length.new }
    ensures words { result ≡ 2 → (asked.now.condition ≢ None) × HandsNothing out.old out.new length.new }
    ensures memory { result ≡ 3 → HandsNothing out.old out.new length.new }
{
    match explain(alloc, text, asked) {
        Ok(answer) => {
            hand_out(&answer.text, out, length);
            if answer.found { 0 } else { 1 }
        }
        Err(ReasonFault::Read(fault)) => hand_said(alloc, RunFault::Read(fault), out, length),
        Err(ReasonFault::Plan(fault)) => hand_said(alloc, RunFault::Plan(fault), out, length),
        Err(ReasonFault::Condition) => hand_nothing(2, length),
        Err(ReasonFault::OutOfMemory) => hand_nothing(3, length),
    }
}
