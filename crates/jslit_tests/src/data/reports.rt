//! Litmus texts with the whole report on each, byte for byte.

use super::independent_reads::{INDEPENDENT_READS, INDEPENDENT_READS_PLAIN};

/// A text and its report.
pub(crate) type Reported = (&'static str, &'static str);

pub(crate) const STORE_BUFFERING: Reported = (
    lit_test_texts::STORE_BUFFERING,
    "test sb
outcome A.r0=0 B.r0=1
  from A.1 init[1]
  from B.1 A.0
  order init[0] init[1] A.0 A.1 B.0 B.1
outcome A.r0=1 B.r0=0
  from A.1 B.0
  from B.1 init[0]
  order init[0] init[1] B.0 B.1 A.0 A.1
outcome A.r0=1 B.r0=1
  from A.1 B.0
  from B.1 A.0
  order init[0] init[1] A.0 B.0 A.1 B.1
outcomes 3
verdict never
data race no
",
);

pub(crate) const STORE_BUFFERING_PLAIN: Reported = (
    lit_test_texts::STORE_BUFFERING_PLAIN,
    "test sbplain
outcome A.r0=0 B.r0=0
  from A.1 init[1]
  from B.1 init[0]
  order init[0] init[1] A.0 A.1 B.0 B.1
outcome A.r0=0 B.r0=1
  from A.1 init[1]
  from B.1 A.0
  order init[0] init[1] A.0 A.1 B.0 B.1
outcome A.r0=1 B.r0=0
  from A.1 B.0
  from B.1 init[0]
  order init[0] init[1] A.0 A.1 B.0 B.1
outcome A.r0=1 B.r0=1
  from A.1 B.0
  from B.1 A.0
  order init[0] init[1] A.0 A.1 B.0 B.1
outcomes 4
verdict sometimes
data race yes
",
);

pub(crate) const MESSAGE_PASSING: Reported = (
    lit_test_texts::MESSAGE_PASSING,
    "test mp
outcome B.r0=0 B.r1=0
  from B.0 init[1]
  from B.1 init[0]
  order init[0] init[1] A.0 B.0 A.1 B.1
outcome B.r0=0 B.r1=1
  from B.0 init[1]
  from B.1 A.0
  order init[0] init[1] A.0 B.0 A.1 B.1
outcome B.r0=1 B.r1=1
  from B.0 A.1
  from B.1 A.0
  order init[0] init[1] A.0 A.1 B.0 B.1
outcomes 3
verdict never
data race yes
",
);

pub(crate) const MESSAGE_PASSING_PLAIN: Reported = (
    lit_test_texts::MESSAGE_PASSING_PLAIN,
    "test mpplain
outcome B.r0=0 B.r1=0
  from B.0 init[1]
  from B.1 init[0]
  order init[0] init[1] A.0 A.1 B.0 B.1
outcome B.r0=0 B.r1=1
  from B.0 init[1]
  from B.1 A.0
  order init[0] init[1] A.0 A.1 B.0 B.1
outcome B.r0=1 B.r1=0
  from B.0 A.1
  from B.1 init[0]
  order init[0] init[1] A.0 A.1 B.0 B.1
outcome B.r0=1 B.r1=1
  from B.0 A.1
  from B.1 A.0
  order init[0] init[1] A.0 A.1 B.0 B.1
outcomes 4
verdict sometimes
data race yes
",
);

pub(crate) const READ_READ_COHERENCE_PLAIN: Reported = (
    lit_test_texts::READ_READ_COHERENCE_PLAIN,
    "test corr
outcome B.r0=0 B.r1=0
  from B.0 init[0]
  from B.1 init[0]
  order init[0] A.0 B.0 B.1
outcome B.r0=0 B.r1=1
  from B.0 init[0]
  from B.1 A.0
  order init[0] A.0 B.0 B.1
outcome B.r0=1 B.r1=0
  from B.0 A.0
  from B.1 init[0]
  order init[0] A.0 B.0 B.1
outcome B.r0=1 B.r1=1
  from B.0 A.0
  from B.1 A.0
  order init[0] A.0 B.0 B.1
outcomes 4
verdict sometimes
data race yes
",
);

pub(crate) const READ_READ_COHERENCE_ATOMIC: Reported = (
    lit_test_texts::READ_READ_COHERENCE_ATOMIC,
    "test corr
outcome B.r0=0 B.r1=0
  from B.0 init[0]
  from B.1 init[0]
  order init[0] B.0 B.1 A.0
outcome B.r0=0 B.r1=1
  from B.0 init[0]
  from B.1 A.0
  order init[0] B.0 A.0 B.1
outcome B.r0=1 B.r1=1
  from B.0 A.0
  from B.1 A.0
  order init[0] A.0 B.0 B.1
outcomes 3
verdict never
data race no
",
);

pub(crate) const OWN_STORE: Reported = (
    lit_test_texts::OWN_STORE,
    "test own
outcome A.r0=1
  from A.1 A.0
  order init[0] A.0 A.1
outcomes 1
verdict always
data race no
",
);

pub(crate) const UNTOUCHED_BYTE: Reported = (
    lit_test_texts::UNTOUCHED_BYTE,
    "test still
outcome A.r0=0
  from A.0 init[0]
  order init[0] A.0
outcomes 1
verdict always
data race no
",
);

pub(crate) const EQUAL_STORES: Reported = (
    lit_test_texts::EQUAL_STORES,
    "test twin
outcome C.r0=0
  from C.0 init[0]
  order init[0] A.0 B.0 C.0
outcome C.r0=1
  from C.0 A.0
  order init[0] A.0 B.0 C.0
outcomes 2
verdict sometimes
data race yes
",
);

pub(crate) const PUBLICATION: Reported = (
    lit_test_texts::PUBLICATION,
    "test pub
outcome B.r0=0 B.r1=0
  from B.0 init[1]
  order init[0] init[1] A.0 B.0 A.1
outcome B.r0=1 B.r1=1
  from B.0 A.1
  from B.1 A.0
  order init[0] init[1] A.0 A.1 B.0 B.1
outcomes 2
verdict never
data race no
",
);

pub(crate) const MASKED_STORE: Reported = (
    lit_test_texts::MASKED_STORE,
    "test mask
outcome B.r0=0
  from B.0 init[0]
  order init[0] A.0 B.0
outcomes 1
verdict always
data race yes
",
);

pub(crate) const REPORTS: [Reported; 13] = [
    STORE_BUFFERING,
    STORE_BUFFERING_PLAIN,
    MESSAGE_PASSING,
    MESSAGE_PASSING_PLAIN,
    READ_READ_COHERENCE_PLAIN,
    READ_READ_COHERENCE_ATOMIC,
    OWN_STORE,
    UNTOUCHED_BYTE,
    EQUAL_STORES,
    PUBLICATION,
    MASKED_STORE,
    INDEPENDENT_READS,
    INDEPENDENT_READS_PLAIN,
];
