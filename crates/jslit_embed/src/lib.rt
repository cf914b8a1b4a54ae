//! jslit for callers by C's convention: a program in C or C++, Python's ctypes, or a page through WebAssembly. Each call runs on the
//! thread that calls, and shares nothing with another call. It needs no runtime: it takes memory, and opens nothing.
//!
//! Each call puts its answer at the beginning of `out`, as far as it fits, and the answer's whole length in `length`: where that is more
//! than `out` has, the caller calls again with as much room. It gives the program's status: 0 for an answer, 1 for a text, test or
//! schedule that is refused, 3 where memory ran out; with 3, `out` stays as it was, and `length` is 0. Callers keep what Rust's references
//! promise: `out` overlaps no other argument. Nothing checks this.
#![tactic(auto)]

mod explaining;
mod handing;

ghost use Rattle.std.specs.Prelude.{◌≡◌, ◌⊎◌, true, false};
ghost use Rattle.jslit.specs.Answer.{IsAnswerOn, IsFaultOn};
ghost use Rattle.jslit.specs.InterleavingAnswer.{IsInterleavingOn, IsScheduleFaultOn};
ghost use Rattle.jslit_embed.specs.Handed.{HandsAnswer, HandsNothing, HandsRefusal, HandsSome, IsEmbedStatus};
ghost use Rattle.jslit_embed.specs.Why.{AsksFor, IsRefusalOn, IsWhyStatus, MayNotAsk};
ghost use Rattle.lit_json.specs.Line.{IsLineOn};
ghost use Rattle.lit_reason.specs.Explained.{IsReasonOn};
ghost use Rattle.lit_reason.specs.declared.question.Asked.{Asked};

use crate::explaining::{asked_of, why};
use crate::handing::{hand_nothing, hand_out, hand_served};
use jslit::{Counted, VERSION, check_alone, check_schedule};
use lit_json::text_line;
use std::alloc::Global;
use std::io;

/// Checks a litmus text: hands out its whole report or its quick one, or the line that refuses it.
fn check_text(alloc: Global, text: &[u8], quick: bool, out: &mut [u8], length: &mut usize) -> u8
    ensures status { IsEmbedStatus result }
    ensures answered { result ≡ 0 → HandsAnswer (IsAnswerOn quick) text.now out.old out.new length.new }
    ensures refused { result ≡ 1 → HandsRefusal IsFaultOn text.now out.old out.new length.new }
    ensures memory { result ≡ 3 → HandsNothing out.old out.new length.new }
{
    let mut input = Counted::new(text);
    let mut output = Counted::new(Vec::new(alloc));
    let status = check_alone(alloc, &mut input, &mut output, &mut io::sink(), quick);
    hand_served(output, status, out, length)
}

/// Checks a litmus text: hands out its whole report, or the line that refuses it.
#[unsafe(no_mangle)]
pub extern "C" fn jslit_check(alloc: Global, text: &[u8], out: &mut [u8], length: &mut usize) -> u8
    ensures status { IsEmbedStatus result }
    ensures answered { result ≡ 0 → HandsAnswer (IsAnswerOn false) text.now out.old out.new length.new }
    ensures refused { result ≡ 1 → HandsRefusal IsFaultOn text.now out.old out.new length.new }
    ensures memory { result ≡ 3 → HandsNothing out.old out.new length.new }
{
    check_text(alloc, text, false, out, length)
}

/// Checks a litmus text: hands out its quick report, or the line that refuses it.
#[unsafe(no_mangle)]
pub extern "C" fn jslit_quick(alloc: Global, text: &[u8], out: &mut [u8], length: &mut usize) -> u8
    ensures status { IsEmbedStatus result }
    ensures answered { result ≡ 0 → HandsAnswer (IsAnswerOn true) text.now out.old out.new length.new }
    ensures refused { result ≡ 1 → HandsRefusal IsFaultOn text.now out.old out.new length.new }
    ensures memory { result ≡ 3 → HandsNothing out.old out.new length.new }
{
    check_text(alloc, text, true, out, length)
}

/// Carries a litmus text out in the turns of a schedule: hands out the outcome, or the line that refuses the text or the schedule.
#[unsafe(no_mangle)]
pub extern "C" fn jslit_schedule(
    alloc: Global,
    text: &[u8],
    schedule: &[u8],
    out: &mut [u8],
    length: &mut usize,
) -> u8
    ensures status { IsEmbedStatus result }
    ensures answered { result ≡ 0 → HandsAnswer (IsInterleavingOn schedule.now) text.now out.old out.new length.new }
    ensures refused { result ≡ 1 → HandsRefusal (IsScheduleFaultOn schedule.now) text.now out.old out.new length.new }
    ensures memory { result ≡ 3 → HandsNothing out.old out.new length.new }
{
    let mut input = Counted::new(text);
    let mut output = Counted::new(Vec::new(alloc));
    let status = check_schedule(alloc, &mut input, &mut output, &mut io::sink(), schedule);
    hand_served(output, status, out, length)
}

/// Explains a litmus text, as `jslit-why`. `question` is 0 for an outcome that meets the condition, 1 for one that does not, 2 for a data
/// race, 3 for the choice with the number `choice`, 4 for the one that `words` select. `condition` stands in place of the text's, unless
/// it is empty. `most` attempts are looked at, 1 to 1,000,000; 0 stands for 1,000. The answer is a line of JSON unless `json` is 0.
/// Status 2: there is no such question or number of attempts, or the words or the condition are none.
#[unsafe(no_mangle)]
pub extern "C" fn jslit_why(
    alloc: Global,
    text: &[u8],
    question: u8,
    choice: u64,
    words: &[u8],
    condition: &[u8],
    most: usize,
    json: u8,
    out: &mut [u8],
    length: &mut usize,
) -> u8
    ensures status { IsWhyStatus result }
    ensures answered { result ≡ 0 → (asked : Asked) × AsksFor question choice words.now condition.now asked
        × HandsSome (IsReasonOn text.now asked true) out.old out.new length.new }
    ensures refused { result ≡ 1 → (asked : Asked) × AsksFor question choice words.now condition.now asked
        × (HandsSome (IsReasonOn text.now asked false) out.old out.new length.new
        ⊎ HandsSome (IsRefusalOn text.now asked) out.old out.new length.new) }
    ensures words { result ≡ 2 → MayNotAsk question condition.now most × HandsNothing out.old out.new length.new }
    ensures memory { result ≡ 3 → HandsNothing out.old out.new length.new }
{
    match asked_of(question, choice, words, condition, most, json != 0) {
        Some(asked) => why(alloc, text, &asked, out, length),
        None => hand_nothing(2, length),
    }
}

/// Says as a line of JSON what a litmus text says, as `jslit-text`.
#[unsafe(no_mangle)]
pub extern "C" fn jslit_text(alloc: Global, text: &[u8], out: &mut [u8], length: &mut usize) -> u8
    ensures status { IsEmbedStatus result }
    ensures told { result ≡ 0 → HandsSome (IsLineOn text.now true) out.old out.new length.new }
    ensures refused { result ≡ 1 → HandsSome (IsLineOn text.now false) out.old out.new length.new }
    ensures memory { result ≡ 3 → HandsNothing out.old out.new length.new }
{
    let Ok(told) = text_line(alloc, VERSION, text) else {
        return hand_nothing(3, length);
    };
    hand_out(&told.line, out, length);
    if told.is_test { 0 } else { 1 }
}
