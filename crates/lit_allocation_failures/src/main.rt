//! Calls of the libraries where memory is refused, as `tools/refused-calls` refuses it. With a number as its word, which is how
//! many workers search, it makes the calls that can be refused on the litmus text of standard input; with none, those that
//! take no memory.
#![tactic(auto)]

mod allocation_free;
mod retries;

use lit_share::WORKER_LIMIT;
use std::env;
use std::io::Read;
use std::test::Fail;

fn main(rt: HostRuntime) -> Result<(), Fail> {
    let Some(word) = env::args(&rt)?.nth(1) else {
        return allocation_free::call_all(&rt);
    };
    // A search needs 1 to `WORKER_LIMIT` workers.
    let workers = word
        .as_str()
        .parse::<usize>()
        .unwrap_or(1)
        .clamp(1, WORKER_LIMIT);
    let mut text = Vec::new(rt.alloc());
    rt.stdin().read_to_end(&mut text)?;
    retries::call_all(&rt, rt.alloc(), &text, workers)
}
