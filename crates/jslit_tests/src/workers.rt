//! Workers, cuttings and the quick report.

use super::calls::writes_by;
use super::data::idle_events::{EDGE, LONG, WIDE, WIDER};
use super::data::independent_reads::{INDEPENDENT_READS, INDEPENDENT_READS_PLAIN};
use super::data::many_choices::COAST;
use super::data::paths::{LOAD_BUFFERING, PATH_REPORTS};
use super::data::reports::{REPORTS, Reported};
use super::data::sizes::SIZE_REPORTS;
use jslit::Options;
use lit_paths::{Plan, plan};
use lit_read::read;
use lit_share::{CUT_LIMIT, WORKER_LIMIT};
use std::alloc::AllocGlobal;
use std::process::Abort;
use std::test::Fail;
use std::thread::Threads;

const LOAD_BUFFERING_QUICK: &str = "test lb
met outcome A.r0=1 B.r0=1
  from A.0 B.1
  from B.0 A.1
  order init[0] init[1] A.0 A.1 B.0 B.1
unmet outcome A.r0=0 B.r0=0
  from A.0 init[0]
  from B.0 init[1]
  order init[0] init[1] A.0 B.0
verdict sometimes
";

pub(super) const INDEPENDENT_READS_QUICK: &str = "test iriw
met none
unmet outcome C.r0=0 C.r1=0 D.r0=0 D.r1=0
  from C.0 init[0]
  from C.1 init[1]
  from D.0 init[1]
  from D.1 init[0]
  order init[0] init[1] C.0 C.1 D.0 B.0 D.1 A.0
verdict never
";

/// So many workers and this cut, within the limits.
fn options(workers: usize, cut: u64, quick: bool) -> Options {
    Options {
        workers: workers.clamp(1, WORKER_LIMIT),
        cut: cut.clamp(1, CUT_LIMIT),
        quick,
    }
}

/// That `run` answers a text with these bytes, by any number of workers and any cutting.
fn writes_by_all(
    rt: &(impl Threads + Sync + Abort + AllocGlobal),
    reported: Reported,
    quick: bool,
) -> Result<(), Fail> {
    let (text, report) = reported;
    let test = read(rt.alloc(), text.as_bytes())?;
    let total = plan(rt.alloc(), &test)?.total();
    for workers in [1, 2, 3, WORKER_LIMIT] {
        for cut in [1, 7, total, total + 1, CUT_LIMIT] {
            writes_by(
                rt,
                text.as_bytes(),
                report.as_bytes(),
                options(workers, cut, quick),
            )?;
        }
    }
    Ok(())
}

#[test]
fn same_report_by_any_workers(rt: HostRuntime) -> Result<(), Fail> {
    for reported in REPORTS {
        writes_by_all(&rt, reported, false)?;
    }
    for reported in PATH_REPORTS {
        writes_by_all(&rt, reported, false)?;
    }
    for reported in SIZE_REPORTS {
        writes_by_all(&rt, reported, false)?;
    }
    for reported in [WIDE, WIDER, EDGE, LONG] {
        writes_by_all(&rt, reported, false)?;
    }
    writes_by_all(&rt, INDEPENDENT_READS, false)?;
    writes_by_all(&rt, INDEPENDENT_READS_PLAIN, false)
}

#[test]
fn same_quick_report_by_any_workers(rt: HostRuntime) -> Result<(), Fail> {
    writes_by_all(&rt, (LOAD_BUFFERING.0, LOAD_BUFFERING_QUICK), true)?;
    writes_by_all(&rt, (INDEPENDENT_READS.0, INDEPENDENT_READS_QUICK), true)
}

#[test]
fn many_choices_by_four_workers(rt: HostRuntime) -> Result<(), Fail> {
    writes_by(
        &rt,
        COAST.0.as_bytes(),
        COAST.1.as_bytes(),
        options(4, 4_096, false),
    )
}
