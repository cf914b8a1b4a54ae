//! Tests with many events, most of which have no part in the outcome.

use super::reports::Reported;

pub(crate) const WIDE: Reported = (
    lit_test_texts::AMONG_IDLE_EVENTS,
    "test wide
outcome A.r0=0 B.r0=1
  from A.1 init[1]
  from B.1 A.0
  order init[0] init[1] init[2] init[3] init[4] init[5] init[6] init[7] init[8] init[9] init[10] init[11] init[12] init[13] \
    init[14] init[15] A.0 A.1 B.0 B.1 C.0 C.1 C.2 C.3 D.0 D.1 D.2 D.3
outcome A.r0=1 B.r0=0
  from A.1 B.0
  from B.1 init[0]
  order init[0] init[1] init[2] init[3] init[4] init[5] init[6] init[7] init[8] init[9] init[10] init[11] init[12] init[13] \
    init[14] init[15] B.0 B.1 A.0 A.1 C.0 C.1 C.2 C.3 D.0 D.1 D.2 D.3
outcome A.r0=1 B.r0=1
  from A.1 B.0
  from B.1 A.0
  order init[0] init[1] init[2] init[3] init[4] init[5] init[6] init[7] init[8] init[9] init[10] init[11] init[12] init[13] \
    init[14] init[15] A.0 B.0 A.1 B.1 C.0 C.1 C.2 C.3 D.0 D.1 D.2 D.3
outcomes 3
verdict never
data race no
",
);

/// The same with one access more.
pub(crate) const WIDER: Reported = (
    "test wide
bytes 16
agent A
Atomics.store(U8, 0, 1)
r0 = Atomics.load(U8, 1)
agent B
Atomics.store(U8, 1, 1)
r0 = Atomics.load(U8, 0)
agent C
U8[8] = 1
U8[9] = 1
U8[10] = 1
U8[11] = 1
agent D
U8[12] = 1
U8[13] = 1
U8[14] = 1
U8[15] = 1
U8[7] = 1
check A.r0 == 0 && B.r0 == 0
",
    "test wide
outcome A.r0=0 B.r0=1
  from A.1 init[1]
  from B.1 A.0
  order init[0] init[1] init[2] init[3] init[4] init[5] init[6] init[7] init[8] init[9] init[10] init[11] init[12] init[13] \
    init[14] init[15] A.0 A.1 B.0 B.1 C.0 C.1 C.2 C.3 D.0 D.1 D.2 D.3 D.4
outcome A.r0=1 B.r0=0
  from A.1 B.0
  from B.1 init[0]
  order init[0] init[1] init[2] init[3] init[4] init[5] init[6] init[7] init[8] init[9] init[10] init[11] init[12] init[13] \
    init[14] init[15] B.0 B.1 A.0 A.1 C.0 C.1 C.2 C.3 D.0 D.1 D.2 D.3 D.4
outcome A.r0=1 B.r0=1
  from A.1 B.0
  from B.1 A.0
  order init[0] init[1] init[2] init[3] init[4] init[5] init[6] init[7] init[8] init[9] init[10] init[11] init[12] init[13] \
    init[14] init[15] A.0 B.0 A.1 B.1 C.0 C.1 C.2 C.3 D.0 D.1 D.2 D.3 D.4
outcomes 3
verdict never
data race no
",
);

/// The last four bytes of the largest block.
pub(crate) const EDGE: Reported = (
    "test edge
bytes 32
agent A
U32[7] = 1
agent B
r0 = DV.getUint32(28, true)
check B.r0 == 1
",
    "test edge
outcome B.r0=0
  from B.0 init[28] init[29] init[30] init[31]
  order init[0] init[1] init[2] init[3] init[4] init[5] init[6] init[7] init[8] init[9] init[10] init[11] init[12] init[13] \
    init[14] init[15] init[16] init[17] init[18] init[19] init[20] init[21] init[22] init[23] init[24] init[25] init[26] \
    init[27] init[28] init[29] init[30] init[31] A.0 B.0
outcome B.r0=1
  from B.0 A.0 init[29] init[30] init[31]
  order init[0] init[1] init[2] init[3] init[4] init[5] init[6] init[7] init[8] init[9] init[10] init[11] init[12] init[13] \
    init[14] init[15] init[16] init[17] init[18] init[19] init[20] init[21] init[22] init[23] init[24] init[25] init[26] \
    init[27] init[28] init[29] init[30] init[31] A.0 B.0
outcomes 2
verdict sometimes
data race yes
",
);

/// As many accesses as a test may have, the last of which reads what the one before it stores.
pub(crate) const LONG: Reported = (
    "test long
bytes 1
agent A
U8[0] = 1
U8[0] = 1
U8[0] = 1
U8[0] = 1
U8[0] = 1
U8[0] = 1
U8[0] = 1
U8[0] = 1
U8[0] = 1
U8[0] = 1
U8[0] = 1
U8[0] = 1
U8[0] = 1
U8[0] = 1
U8[0] = 1
U8[0] = 1
U8[0] = 1
U8[0] = 1
U8[0] = 1
U8[0] = 1
U8[0] = 1
U8[0] = 1
U8[0] = 1
r0 = U8[0]
check A.r0 == 1
",
    "test long
outcome A.r0=1
  from A.23 A.22
  order init[0] A.0 A.1 A.2 A.3 A.4 A.5 A.6 A.7 A.8 A.9 A.10 A.11 A.12 A.13 A.14 A.15 A.16 A.17 A.18 A.19 A.20 A.21 A.22 A.23
outcomes 1
verdict always
data race no
",
);
