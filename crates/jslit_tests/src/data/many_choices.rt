//! A test of 2^48 choices, as many as a test may have, one of which is valid: each read has to take the last store.

use super::reports::Reported;

pub(crate) const COAST: Reported = (
    "test coast
bytes 4
agent A
U32[0] = 1
U32[0] = 2
U32[0] = 3
r0 = U32[0]
r0 = U32[0]
r0 = U32[0]
r0 = U32[0]
r0 = U32[0]
r0 = U32[0]
check A.r0 == 3
",
    "test coast
outcome A.r0=3
  from A.3 A.2 A.2 A.2 A.2
  from A.4 A.2 A.2 A.2 A.2
  from A.5 A.2 A.2 A.2 A.2
  from A.6 A.2 A.2 A.2 A.2
  from A.7 A.2 A.2 A.2 A.2
  from A.8 A.2 A.2 A.2 A.2
  order init[0] init[1] init[2] init[3] A.0 A.1 A.2 A.3 A.4 A.5 A.6 A.7 A.8
outcomes 1
verdict always
data race no
",
);
