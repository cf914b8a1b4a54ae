//! Litmus texts with accesses of two and four bytes, with the whole report on each, byte for byte.

use super::reports::Reported;

const MIXED_SIZES: Reported = (
    lit_test_texts::STORE_BUFFERING_MIXED,
    "test sbmixed
outcome A.r0=0 B.r0=0
  from A.1 init[2]
  from B.1 init[0]
  order init[0] init[1] init[2] init[3] A.0 A.1 B.0 B.1
outcome A.r0=0 B.r0=1
  from A.1 init[2]
  from B.1 A.0
  order init[0] init[1] init[2] init[3] A.0 A.1 B.0 B.1
outcome A.r0=1 B.r0=0
  from A.1 B.0
  from B.1 init[0]
  order init[0] init[1] init[2] init[3] A.0 A.1 B.0 B.1
outcome A.r0=1 B.r0=1
  from A.1 B.0
  from B.1 A.0
  order init[0] init[1] init[2] init[3] A.0 A.1 B.0 B.1
outcomes 4
verdict sometimes
data race yes
",
);

const TORN_READ: Reported = (
    lit_test_texts::TYPED_READ,
    "test tear
outcome C.r0=0
  from C.0 init[0] init[1]
  order init[0] init[1] A.0 B.0 C.0
outcome C.r0=1
  from C.0 A.0 init[1]
  order init[0] init[1] A.0 B.0 C.0
outcome C.r0=2
  from C.0 B.0 init[1]
  order init[0] init[1] A.0 B.0 C.0
outcome C.r0=256
  from C.0 init[0] A.0
  order init[0] init[1] A.0 B.0 C.0
outcome C.r0=257
  from C.0 A.0 A.0
  order init[0] init[1] A.0 B.0 C.0
outcome C.r0=512
  from C.0 init[0] B.0
  order init[0] init[1] A.0 B.0 C.0
outcome C.r0=514
  from C.0 B.0 B.0
  order init[0] init[1] A.0 B.0 C.0
outcomes 7
verdict never
data race yes
",
);

const VIEWED_READ: Reported = (
    lit_test_texts::VIEWED_READ,
    "test teardv
outcome C.r0=0
  from C.0 init[0] init[1]
  order init[0] init[1] A.0 B.0 C.0
outcome C.r0=1
  from C.0 A.0 init[1]
  order init[0] init[1] A.0 B.0 C.0
outcome C.r0=2
  from C.0 B.0 init[1]
  order init[0] init[1] A.0 B.0 C.0
outcome C.r0=256
  from C.0 init[0] A.0
  order init[0] init[1] A.0 B.0 C.0
outcome C.r0=257
  from C.0 A.0 A.0
  order init[0] init[1] A.0 B.0 C.0
outcome C.r0=258
  from C.0 B.0 A.0
  order init[0] init[1] A.0 B.0 C.0
outcome C.r0=512
  from C.0 init[0] B.0
  order init[0] init[1] A.0 B.0 C.0
outcome C.r0=513
  from C.0 A.0 B.0
  order init[0] init[1] A.0 B.0 C.0
outcome C.r0=514
  from C.0 B.0 B.0
  order init[0] init[1] A.0 B.0 C.0
outcomes 9
verdict sometimes
data race yes
",
);

const WIDE_EXCHANGE: Reported = (
    "test wide_exchange
bytes 2
agent A
r0 = Atomics.exchange(U16, 0, 258)
agent B
r0 = Atomics.compareExchange(U16, 0, 258, 772)
check A.r0 == 772 || B.r0 == 1
",
    "test wide_exchange
outcome A.r0=0 B.r0=0
  from A.0 init[0] init[1]
  from B.0 init[0] init[1]
  order init[0] init[1] B.0 A.0
outcome A.r0=0 B.r0=258
  from A.0 init[0] init[1]
  from B.0 A.0 A.0
  order init[0] init[1] A.0 B.0
outcomes 2
verdict never
data race no
",
);

/// Overlapping stores and loads, a typed array load, a DataView load, exchanges of several bytes.
pub(crate) const SIZE_REPORTS: [Reported; 4] = [MIXED_SIZES, TORN_READ, VIEWED_READ, WIDE_EXCHANGE];
