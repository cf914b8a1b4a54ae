//! Whole reports, by `run` and by the program.

use super::calls::{prints, writes};
use super::data::idle_events::{EDGE, LONG, WIDE, WIDER};
use super::data::many_choices::COAST;
use super::data::paths::PATH_REPORTS;
use super::data::reports::REPORTS;
use super::data::sizes::SIZE_REPORTS;
use std::test::Fail;

#[test]
fn run_reports(rt: HostRuntime) -> Result<(), Fail> {
    for (text, report) in REPORTS {
        writes(&rt, text.as_bytes(), report.as_bytes())?;
    }
    Ok(())
}

#[test]
fn run_reports_on_paths(rt: HostRuntime) -> Result<(), Fail> {
    for (text, report) in PATH_REPORTS {
        writes(&rt, text.as_bytes(), report.as_bytes())?;
    }
    Ok(())
}

#[test]
fn run_reports_on_sizes(rt: HostRuntime) -> Result<(), Fail> {
    for (text, report) in SIZE_REPORTS {
        writes(&rt, text.as_bytes(), report.as_bytes())?;
    }
    Ok(())
}

#[test]
fn program_reports(rt: HostRuntime) -> Result<(), Fail> {
    for (text, report) in REPORTS {
        prints(&rt, text.as_bytes(), report.as_bytes(), 0)?;
    }
    Ok(())
}

#[test]
fn run_reports_among_many_events(rt: HostRuntime) -> Result<(), Fail> {
    for (text, report) in [WIDE, WIDER, EDGE, LONG] {
        writes(&rt, text.as_bytes(), report.as_bytes())?;
        prints(&rt, text.as_bytes(), report.as_bytes(), 0)?;
    }
    Ok(())
}

#[test]
fn run_reports_among_many_choices(rt: HostRuntime) -> Result<(), Fail> {
    prints(&rt, COAST.0.as_bytes(), COAST.1.as_bytes(), 0)
}
