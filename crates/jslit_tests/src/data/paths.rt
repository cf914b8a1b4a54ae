//! Litmus texts with branches and exchanges, with the whole report on each, byte for byte.

use super::reports::Reported;

pub(crate) const LOAD_BUFFERING: Reported = (
    lit_test_texts::LOAD_BUFFERING,
    "test lb
outcome A.r0=0 B.r0=0
  from A.0 init[0]
  from B.0 init[1]
  order init[0] init[1] A.0 B.0
outcome A.r0=1 B.r0=1
  from A.0 B.1
  from B.0 A.1
  order init[0] init[1] A.0 A.1 B.0 B.1
outcomes 2
verdict sometimes
data race yes
",
);

pub(crate) const LOAD_BUFFERING_ATOMIC: Reported = (
    lit_test_texts::LOAD_BUFFERING_ATOMIC,
    "test lb
outcome A.r0=0 B.r0=0
  from A.0 init[0]
  from B.0 init[1]
  order init[0] init[1] A.0 B.0
outcomes 1
verdict never
data race no
",
);

pub(crate) const BOTH_EXCHANGE_FOR_ONE: Reported = (
    lit_test_texts::BOTH_EXCHANGE_FOR_ONE,
    "test cas
outcome A.r0=0 B.r0=1
  from A.0 init[0]
  from B.0 A.0
  order init[0] A.0 B.0
outcome A.r0=1 B.r0=0
  from A.0 B.0
  from B.0 init[0]
  order init[0] B.0 A.0
outcomes 2
verdict never
data race no
",
);

pub(crate) const FAILED_EXCHANGE: Reported = (
    lit_test_texts::FAILED_EXCHANGE,
    "test casfail
outcome A.r0=0 A.r1=0
  from A.0 init[0]
  from A.1 init[1]
  order init[0] init[1] A.0 A.1 B.0 B.1
outcome A.r0=0 A.r1=1
  from A.0 init[0]
  from A.1 B.0
  order init[0] init[1] A.0 A.1 B.0 B.1
outcome A.r0=5 A.r1=1
  from A.0 B.1
  from A.1 B.0
  order init[0] init[1] B.0 B.1 A.0 A.1
outcomes 3
verdict never
data race yes
",
);

pub(crate) const SWAPS: Reported = (
    lit_test_texts::SWAPS,
    "test swap
outcome A.r0=0 B.r0=1
  from A.0 init[0]
  from B.0 A.0
  order init[0] A.0 B.0
outcome A.r0=2 B.r0=0
  from A.0 B.0
  from B.0 init[0]
  order init[0] B.0 A.0
outcomes 2
verdict always
data race no
",
);

pub(crate) const REGISTER_OVERWRITTEN: Reported = (
    "test overwritten
bytes 1
agent A
r0 = U8[0]
r0 = Atomics.load(U8, 0)
if r0 == 2 {
U8[0] = 3
}
agent B
U8[0] = 1
Atomics.store(U8, 0, 2)
check A.r0 == 2
",
    "test overwritten
outcome A.r0=0
  from A.0 init[0]
  from A.1 init[0]
  order init[0] A.0 A.1 B.0 B.1
outcome A.r0=1
  from A.0 init[0]
  from A.1 B.0
  order init[0] A.0 A.1 B.0 B.1
outcome A.r0=2
  from A.0 init[0]
  from A.1 B.1
  order init[0] A.0 B.0 B.1 A.1 A.2
outcomes 3
verdict sometimes
data race yes
",
);

pub(crate) const REGISTER_UNWRITTEN: Reported = (
    "test unwritten
bytes 1
agent A
if r3 == 1 {
r0 = U8[0]
} else {
r1 = U8[0]
}
agent B
U8[0] = 1
check A.r0 == 0 && A.r1 == 1
",
    "test unwritten
outcome A.r0=0 A.r1=0
  from A.0 init[0]
  order init[0] A.0 B.0
outcome A.r0=0 A.r1=1
  from A.0 B.0
  order init[0] A.0 B.0
outcomes 2
verdict sometimes
data race yes
",
);

// The decision is the same either way, and no statement follows it.
pub(crate) const EMPTY_PARTS: Reported = (
    "test t
bytes 1
agent A
r0 = U8[0]
if r0 == 0 {
}
check A.r0 == 0
",
    "test t
outcome A.r0=0
  from A.0 init[0]
  order init[0] A.0
outcomes 1
verdict always
data race no
",
);

// A DataView access of one byte.
pub(crate) const VIEWED_BYTE: Reported = (
    "test t
bytes 1
agent A
r0 = DV.getUint8(0)
check A.r0 == 0
",
    "test t
outcome A.r0=0
  from A.0 init[0]
  order init[0] A.0
outcomes 1
verdict always
data race no
",
);

pub(crate) const PATH_REPORTS: [Reported; 9] = [
    LOAD_BUFFERING,
    LOAD_BUFFERING_ATOMIC,
    BOTH_EXCHANGE_FOR_ONE,
    FAILED_EXCHANGE,
    SWAPS,
    REGISTER_OVERWRITTEN,
    REGISTER_UNWRITTEN,
    EMPTY_PARTS,
    VIEWED_BYTE,
];
