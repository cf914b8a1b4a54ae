//! Measures parts of the libraries, for `tools/measure`. The first word says what is measured; without a known word this
//! prints the words that there are. It is no part of the product.
#![tactic(auto)]

mod collecting;
mod ordering;
mod parts;
mod planning;

use std::io::Read;
use std::test::Fail;
use std::{env, io};

const USAGE: &str =
    "collecting PIECES, parts or planning, on the litmus text of standard input; or ordering";

/// All of standard input.
fn text(rt: &HostRuntime) -> io::Result<Vec<u8>> {
    let mut text = Vec::new(rt.alloc());
    rt.stdin().read_to_end(&mut text)?;
    Ok(text)
}

fn main(rt: HostRuntime) -> Result<(), Fail> {
    let mut words = env::args(&rt)?.skip(1);
    let measure = words.next();
    match measure.as_ref().map_or("", |word| word.as_str()) {
        "collecting" => {
            let pieces = words
                .next()
                .map_or(1, |word| word.as_str().parse::<u64>().unwrap_or(1).max(1));
            collecting::measure(&rt, &text(&rt)?, pieces)
        }
        "ordering" => Ok(ordering::measure(&rt)?),
        "parts" => parts::measure(&rt, &text(&rt)?),
        "planning" => planning::measure(&rt, &text(&rt)?),
        _ => Ok(println!(rt; "{USAGE}")?),
    }
}
