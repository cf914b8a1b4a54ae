//! Independent reads of independent writes: the litmus texts with the longest reports.

use super::reports::Reported;

pub(crate) const INDEPENDENT_READS: Reported = (
    lit_test_texts::INDEPENDENT_READS,
    "test iriw
outcome C.r0=0 C.r1=0 D.r0=0 D.r1=0
  from C.0 init[0]
  from C.1 init[1]
  from D.0 init[1]
  from D.1 init[0]
  order init[0] init[1] C.0 C.1 D.0 B.0 D.1 A.0
outcome C.r0=0 C.r1=0 D.r0=0 D.r1=1
  from C.0 init[0]
  from C.1 init[1]
  from D.0 init[1]
  from D.1 A.0
  order init[0] init[1] C.0 A.0 C.1 D.0 B.0 D.1
outcome C.r0=0 C.r1=0 D.r0=1 D.r1=0
  from C.0 init[0]
  from C.1 init[1]
  from D.0 B.0
  from D.1 init[0]
  order init[0] init[1] C.0 C.1 B.0 D.0 D.1 A.0
outcome C.r0=0 C.r1=0 D.r0=1 D.r1=1
  from C.0 init[0]
  from C.1 init[1]
  from D.0 B.0
  from D.1 A.0
  order init[0] init[1] C.0 A.0 C.1 B.0 D.0 D.1
outcome C.r0=0 C.r1=1 D.r0=0 D.r1=0
  from C.0 init[0]
  from C.1 B.0
  from D.0 init[1]
  from D.1 init[0]
  order init[0] init[1] C.0 D.0 B.0 C.1 D.1 A.0
outcome C.r0=0 C.r1=1 D.r0=0 D.r1=1
  from C.0 init[0]
  from C.1 B.0
  from D.0 init[1]
  from D.1 A.0
  order init[0] init[1] C.0 A.0 D.0 B.0 C.1 D.1
outcome C.r0=0 C.r1=1 D.r0=1 D.r1=0
  from C.0 init[0]
  from C.1 B.0
  from D.0 B.0
  from D.1 init[0]
  order init[0] init[1] B.0 C.0 C.1 D.0 D.1 A.0
outcome C.r0=0 C.r1=1 D.r0=1 D.r1=1
  from C.0 init[0]
  from C.1 B.0
  from D.0 B.0
  from D.1 A.0
  order init[0] init[1] B.0 C.0 A.0 C.1 D.0 D.1
outcome C.r0=1 C.r1=0 D.r0=0 D.r1=0
  from C.0 A.0
  from C.1 init[1]
  from D.0 init[1]
  from D.1 init[0]
  order init[0] init[1] D.0 D.1 A.0 C.0 C.1 B.0
outcome C.r0=1 C.r1=0 D.r0=0 D.r1=1
  from C.0 A.0
  from C.1 init[1]
  from D.0 init[1]
  from D.1 A.0
  order init[0] init[1] A.0 C.0 C.1 D.0 B.0 D.1
outcome C.r0=1 C.r1=0 D.r0=1 D.r1=1
  from C.0 A.0
  from C.1 init[1]
  from D.0 B.0
  from D.1 A.0
  order init[0] init[1] A.0 C.0 C.1 B.0 D.0 D.1
outcome C.r0=1 C.r1=1 D.r0=0 D.r1=0
  from C.0 A.0
  from C.1 B.0
  from D.0 init[1]
  from D.1 init[0]
  order init[0] init[1] D.0 B.0 D.1 A.0 C.0 C.1
outcome C.r0=1 C.r1=1 D.r0=0 D.r1=1
  from C.0 A.0
  from C.1 B.0
  from D.0 init[1]
  from D.1 A.0
  order init[0] init[1] A.0 C.0 D.0 B.0 C.1 D.1
outcome C.r0=1 C.r1=1 D.r0=1 D.r1=0
  from C.0 A.0
  from C.1 B.0
  from D.0 B.0
  from D.1 init[0]
  order init[0] init[1] B.0 D.0 D.1 A.0 C.0 C.1
outcome C.r0=1 C.r1=1 D.r0=1 D.r1=1
  from C.0 A.0
  from C.1 B.0
  from D.0 B.0
  from D.1 A.0
  order init[0] init[1] A.0 B.0 C.0 C.1 D.0 D.1
outcomes 15
verdict never
data race no
",
);

pub(crate) const INDEPENDENT_READS_PLAIN: Reported = (
    lit_test_texts::INDEPENDENT_READS_PLAIN,
    "test iriw
outcome C.r0=0 C.r1=0 D.r0=0 D.r1=0
  from C.0 init[0]
  from C.1 init[1]
  from D.0 init[1]
  from D.1 init[0]
  order init[0] init[1] A.0 B.0 C.0 C.1 D.0 D.1
outcome C.r0=0 C.r1=0 D.r0=0 D.r1=1
  from C.0 init[0]
  from C.1 init[1]
  from D.0 init[1]
  from D.1 A.0
  order init[0] init[1] A.0 B.0 C.0 C.1 D.0 D.1
outcome C.r0=0 C.r1=0 D.r0=1 D.r1=0
  from C.0 init[0]
  from C.1 init[1]
  from D.0 B.0
  from D.1 init[0]
  order init[0] init[1] A.0 B.0 C.0 C.1 D.0 D.1
outcome C.r0=0 C.r1=0 D.r0=1 D.r1=1
  from C.0 init[0]
  from C.1 init[1]
  from D.0 B.0
  from D.1 A.0
  order init[0] init[1] A.0 B.0 C.0 C.1 D.0 D.1
outcome C.r0=0 C.r1=1 D.r0=0 D.r1=0
  from C.0 init[0]
  from C.1 B.0
  from D.0 init[1]
  from D.1 init[0]
  order init[0] init[1] A.0 B.0 C.0 C.1 D.0 D.1
outcome C.r0=0 C.r1=1 D.r0=0 D.r1=1
  from C.0 init[0]
  from C.1 B.0
  from D.0 init[1]
  from D.1 A.0
  order init[0] init[1] A.0 B.0 C.0 C.1 D.0 D.1
outcome C.r0=0 C.r1=1 D.r0=1 D.r1=0
  from C.0 init[0]
  from C.1 B.0
  from D.0 B.0
  from D.1 init[0]
  order init[0] init[1] A.0 B.0 C.0 C.1 D.0 D.1
outcome C.r0=0 C.r1=1 D.r0=1 D.r1=1
  from C.0 init[0]
  from C.1 B.0
  from D.0 B.0
  from D.1 A.0
  order init[0] init[1] A.0 B.0 C.0 C.1 D.0 D.1
outcome C.r0=1 C.r1=0 D.r0=0 D.r1=0
  from C.0 A.0
  from C.1 init[1]
  from D.0 init[1]
  from D.1 init[0]
  order init[0] init[1] A.0 B.0 C.0 C.1 D.0 D.1
outcome C.r0=1 C.r1=0 D.r0=0 D.r1=1
  from C.0 A.0
  from C.1 init[1]
  from D.0 init[1]
  from D.1 A.0
  order init[0] init[1] A.0 B.0 C.0 C.1 D.0 D.1
outcome C.r0=1 C.r1=0 D.r0=1 D.r1=0
  from C.0 A.0
  from C.1 init[1]
  from D.0 B.0
  from D.1 init[0]
  order init[0] init[1] A.0 B.0 C.0 C.1 D.0 D.1
outcome C.r0=1 C.r1=0 D.r0=1 D.r1=1
  from C.0 A.0
  from C.1 init[1]
  from D.0 B.0
  from D.1 A.0
  order init[0] init[1] A.0 B.0 C.0 C.1 D.0 D.1
outcome C.r0=1 C.r1=1 D.r0=0 D.r1=0
  from C.0 A.0
  from C.1 B.0
  from D.0 init[1]
  from D.1 init[0]
  order init[0] init[1] A.0 B.0 C.0 C.1 D.0 D.1
outcome C.r0=1 C.r1=1 D.r0=0 D.r1=1
  from C.0 A.0
  from C.1 B.0
  from D.0 init[1]
  from D.1 A.0
  order init[0] init[1] A.0 B.0 C.0 C.1 D.0 D.1
outcome C.r0=1 C.r1=1 D.r0=1 D.r1=0
  from C.0 A.0
  from C.1 B.0
  from D.0 B.0
  from D.1 init[0]
  order init[0] init[1] A.0 B.0 C.0 C.1 D.0 D.1
outcome C.r0=1 C.r1=1 D.r0=1 D.r1=1
  from C.0 A.0
  from C.1 B.0
  from D.0 B.0
  from D.1 A.0
  order init[0] init[1] A.0 B.0 C.0 C.1 D.0 D.1
outcomes 16
verdict sometimes
data race yes
",
);
