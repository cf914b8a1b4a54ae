//! Litmus texts that tests of several crates work with, each once, in their canonical form.
#![tactic(auto)]

/// Store buffering with atomic accesses.
pub const STORE_BUFFERING: &str = "test sb
bytes 2
agent A
Atomics.store(U8, 0, 1)
r0 = Atomics.load(U8, 1)
agent B
Atomics.store(U8, 1, 1)
r0 = Atomics.load(U8, 0)
check A.r0 == 0 && B.r0 == 0
";

/// Store buffering with plain accesses.
pub const STORE_BUFFERING_PLAIN: &str = "test sbplain
bytes 2
agent A
U8[0] = 1
r0 = U8[1]
agent B
U8[1] = 1
r0 = U8[0]
check A.r0 == 0 && B.r0 == 0
";

/// Store buffering where each load has half the size of the store that it meets.
pub const STORE_BUFFERING_MIXED: &str = "test sbmixed
bytes 4
agent A
Atomics.store(U16, 0, 1)
r0 = Atomics.load(U8, 2)
agent B
Atomics.store(U16, 1, 1)
r0 = Atomics.load(U8, 0)
check A.r0 == 0 && B.r0 == 0
";

/// Message passing with an atomic flag.
pub const MESSAGE_PASSING: &str = "test mp
bytes 2
agent A
U8[0] = 1
Atomics.store(U8, 1, 1)
agent B
r0 = Atomics.load(U8, 1)
r1 = U8[0]
check B.r0 == 1 && B.r1 == 0
";

/// Message passing with a plain flag.
pub const MESSAGE_PASSING_PLAIN: &str = "test mpplain
bytes 2
agent A
U8[0] = 1
U8[1] = 1
agent B
r0 = U8[1]
r1 = U8[0]
check B.r0 == 1 && B.r1 == 0
";

/// Two plain loads of a byte that another agent stores.
pub const READ_READ_COHERENCE_PLAIN: &str = "test corr
bytes 1
agent A
U8[0] = 1
agent B
r0 = U8[0]
r1 = U8[0]
check B.r0 == 1 && B.r1 == 0
";

/// Two atomic loads of a byte that another agent stores.
pub const READ_READ_COHERENCE_ATOMIC: &str = "test corr
bytes 1
agent A
Atomics.store(U8, 0, 1)
agent B
r0 = Atomics.load(U8, 0)
r1 = Atomics.load(U8, 0)
check B.r0 == 1 && B.r1 == 0
";

/// A load of what the agent itself has stored.
pub const OWN_STORE: &str = "test own
bytes 1
agent A
U8[0] = 1
r0 = U8[0]
check A.r0 == 1
";

/// A load of a byte that nobody stores.
pub const UNTOUCHED_BYTE: &str = "test still
bytes 1
agent A
r0 = U8[0]
check A.r0 == 0
";

/// Two stores of one value: the outcome does not tell which of them is read.
pub const EQUAL_STORES: &str = "test twin
bytes 1
agent A
U8[0] = 1
agent B
U8[0] = 1
agent C
r0 = U8[0]
check C.r0 == 1
";

/// A plain store that is published by an atomic one.
pub const PUBLICATION: &str = "test pub
bytes 2
agent A
U8[0] = 1
Atomics.store(U8, 1, 1)
agent B
r0 = Atomics.load(U8, 1)
if r0 == 1 {
r1 = U8[0]
}
check B.r0 == 1 && B.r1 == 0
";

/// A store of what the byte holds already.
pub const MASKED_STORE: &str = "test mask
bytes 1
agent A
U8[0] = 0
agent B
r0 = U8[0]
check B.r0 == 0
";

/// Independent reads of independent writes, with atomic loads.
pub const INDEPENDENT_READS: &str = "test iriw
bytes 2
agent A
Atomics.store(U8, 0, 1)
agent B
Atomics.store(U8, 1, 1)
agent C
r0 = Atomics.load(U8, 0)
r1 = Atomics.load(U8, 1)
agent D
r0 = Atomics.load(U8, 1)
r1 = Atomics.load(U8, 0)
check C.r0 == 1 && C.r1 == 0 && D.r0 == 1 && D.r1 == 0
";

/// Independent reads of independent writes, with plain loads.
pub const INDEPENDENT_READS_PLAIN: &str = "test iriw
bytes 2
agent A
Atomics.store(U8, 0, 1)
agent B
Atomics.store(U8, 1, 1)
agent C
r0 = U8[0]
r1 = U8[1]
agent D
r0 = U8[1]
r1 = U8[0]
check C.r0 == 1 && C.r1 == 0 && D.r0 == 1 && D.r1 == 0
";

/// Load buffering with branches and plain accesses.
pub const LOAD_BUFFERING: &str = "test lb
bytes 2
agent A
r0 = U8[0]
if r0 == 1 {
U8[1] = 1
}
agent B
r0 = U8[1]
if r0 == 1 {
U8[0] = 1
}
check A.r0 == 1 && B.r0 == 1
";

/// Load buffering with branches and atomic accesses.
pub const LOAD_BUFFERING_ATOMIC: &str = "test lb
bytes 2
agent A
r0 = Atomics.load(U8, 0)
if r0 == 1 {
Atomics.store(U8, 1, 1)
}
agent B
r0 = Atomics.load(U8, 1)
if r0 == 1 {
Atomics.store(U8, 0, 1)
}
check A.r0 == 1 && B.r0 == 1
";

/// Two compareExchanges that expect the same.
pub const BOTH_EXCHANGE_FOR_ONE: &str = "test cas
bytes 1
agent A
r0 = Atomics.compareExchange(U8, 0, 0, 1)
agent B
r0 = Atomics.compareExchange(U8, 0, 0, 1)
check A.r0 == 0 && B.r0 == 0
";

/// A compareExchange that only reads.
pub const FAILED_EXCHANGE: &str = "test casfail
bytes 2
agent A
r0 = Atomics.compareExchange(U8, 0, 7, 9)
r1 = U8[1]
agent B
U8[1] = 1
Atomics.store(U8, 0, 5)
check A.r0 == 5 && A.r1 == 0
";

/// Two exchanges.
pub const SWAPS: &str = "test swap
bytes 1
agent A
r0 = Atomics.exchange(U8, 0, 1)
agent B
r0 = Atomics.exchange(U8, 0, 2)
check A.r0 == 0 || B.r0 == 0
";

/// A load of a typed array, which is tear free.
pub const TYPED_READ: &str = "test tear
bytes 2
agent A
U16[0] = 257
agent B
U16[0] = 514
agent C
r0 = U16[0]
check C.r0 == 258 || C.r0 == 513
";

/// A load of a DataView, which may be torn.
pub const VIEWED_READ: &str = "test teardv
bytes 2
agent A
U16[0] = 257
agent B
U16[0] = 514
agent C
r0 = DV.getUint16(0, true)
check C.r0 == 258 || C.r0 == 513
";

/// Twelve decisions, none of which changes what is read: 4,096 combinations of paths, each with one choice. Only the one of
/// then-parts alone has a valid execution.
pub const TWELVE_BRANCHES: &str = "test branches
bytes 1
agent A
r0 = U8[0]
if r0 == 0 {
}
if r0 == 0 {
}
if r0 == 0 {
}
if r0 == 0 {
}
if r0 == 0 {
}
if r0 == 0 {
}
if r0 == 0 {
}
if r0 == 0 {
}
if r0 == 0 {
}
if r0 == 0 {
}
if r0 == 0 {
}
if r0 == 0 {
}
check A.r0 == 0
";

/// Exchanges and DataView accesses that overlap.
pub const EXCHANGES: &str = "test exchanges
bytes 4
agent A
r0 = Atomics.exchange(U16, 0, 258)
r1 = Atomics.compareExchange(U8, 1, 1, 7)
agent B
r0 = DV.getUint16(1, true)
r1 = Atomics.compareExchange(U16, 0, 258, 772)
if r1 == 258 {
DV.setUint16(2, 513, true)
}
r2 = U32[0]
check A.r0 == 0
";

/// Store buffering among twelve accesses, eight of which have no part in it.
pub const AMONG_IDLE_EVENTS: &str = "test wide
bytes 16
agent A
Atomics.store(U8, 0, 1)
r0 = Atomics.load(U8, 1)
agent B
Atomics.store(U8, 1, 1)
r0 = Atomics.load(U8, 0)
agent C
U8[8] = 1
U8[9] = 1
U8[10] = 1
U8[11] = 1
agent D
U8[12] = 1
U8[13] = 1
U8[14] = 1
U8[15] = 1
check A.r0 == 0 && B.r0 == 0
";
