//! As many combinations of paths as a test may have.

use super::calls::{prints, writes_by};
use jslit::Options;
use lit_test_texts::TWELVE_BRANCHES;
use std::test::Fail;

const REPORT: &str = "test branches
outcome A.r0=0
  from A.0 init[0]
  order init[0] A.0
outcomes 1
verdict always
data race no
";

const QUICK_REPORT: &str = "test branches
met outcome A.r0=0
  from A.0 init[0]
  order init[0] A.0
unmet none
verdict always
";

#[test]
fn twelve_branches(rt: HostRuntime) -> Result<(), Fail> {
    let text = TWELVE_BRANCHES.as_bytes();
    prints(&rt, text, REPORT.as_bytes(), 0)?;
    let quick = Options {
        workers: 3,
        cut: 1,
        quick: true,
    };
    writes_by(&rt, text, QUICK_REPORT.as_bytes(), quick)
}
