//! The canonical text, and that reading it gives the test again.

use super::asserted::test_of;
use lit_read::show;
use lit_syntax::Test;
use lit_test_texts::{
    AMONG_IDLE_EVENTS, BOTH_EXCHANGE_FOR_ONE, EQUAL_STORES, EXCHANGES, FAILED_EXCHANGE,
    INDEPENDENT_READS, LOAD_BUFFERING, MESSAGE_PASSING, MESSAGE_PASSING_PLAIN, OWN_STORE,
    READ_READ_COHERENCE_PLAIN, STORE_BUFFERING, STORE_BUFFERING_MIXED, STORE_BUFFERING_PLAIN,
    SWAPS, TWELVE_BRANCHES, TYPED_READ, UNTOUCHED_BYTE, VIEWED_READ,
};
use std::alloc::{AllocError, Global};
use std::process::Abort;
use std::test::Fail;

/// Texts that are canonical.
const CANONICAL: [&str; 20] = [
    STORE_BUFFERING,
    STORE_BUFFERING_PLAIN,
    STORE_BUFFERING_MIXED,
    MESSAGE_PASSING,
    MESSAGE_PASSING_PLAIN,
    READ_READ_COHERENCE_PLAIN,
    LOAD_BUFFERING,
    BOTH_EXCHANGE_FOR_ONE,
    FAILED_EXCHANGE,
    SWAPS,
    EXCHANGES,
    TYPED_READ,
    VIEWED_READ,
    OWN_STORE,
    UNTOUCHED_BYTE,
    EQUAL_STORES,
    INDEPENDENT_READS,
    AMONG_IDLE_EVENTS,
    "test choices
bytes 4
agent A
U32[0] = 1
U32[0] = 2
U32[0] = 3
agent B
r0 = U32[0]
r0 = U32[0]
r0 = U32[0]
r0 = U32[0]
r0 = U32[0]
r0 = U32[0]
check B.r0 == 0
",
    TWELVE_BRANCHES,
];

/// A text of each form, with blanks, comments and empty parts that can be omitted.
const UNTIDY: &str = "
\ttest whole // a name

bytes  16\r
agent A
  r0=U8[ 15 ]
r1 =U16[7]
r2= U32[3]
U8 [0]=255
U16[0]=65535
U32[0]=4294967295 // the most
r3=Atomics . load(U16,7)
Atomics.store( U32,3,5 )
r4=Atomics.exchange(U8,0,1)
r5=Atomics.compareExchange(U32,1,4294967295,2)
r6=DV.getUint8(15)
r7=DV.getUint16(14,true)
r0=DV.getUint32(12,true)
DV.setUint8(15,1)
DV.setUint16(14,2,true)
DV.setUint32(12,3,true)
if r0==1{
r1=U8[0]
if r1!=2{
}else{
}
}else{
U8[1]=1
}
if r0==0{
}else{
}
agent B
check(A.r0==1)";

const TIDY: &str = "test whole
bytes 16
agent A
r0 = U8[15]
r1 = U16[7]
r2 = U32[3]
U8[0] = 255
U16[0] = 65535
U32[0] = 4294967295
r3 = Atomics.load(U16, 7)
Atomics.store(U32, 3, 5)
r4 = Atomics.exchange(U8, 0, 1)
r5 = Atomics.compareExchange(U32, 1, 4294967295, 2)
r6 = DV.getUint8(15)
r7 = DV.getUint16(14, true)
r0 = DV.getUint32(12, true)
DV.setUint8(15, 1)
DV.setUint16(14, 2, true)
DV.setUint32(12, 3, true)
if r0 == 1 {
r1 = U8[0]
if r1 != 2 {
}
} else {
U8[1] = 1
}
if r0 == 0 {
}
agent B
check A.r0 == 1
";

/// Conditions, and how they are shown.
const CONDITIONS: [(&str, &str); 10] = [
    (
        "!(A.r0==1)||(A.r0 == 2&&A.r1==3)",
        "!A.r0 == 1 || A.r0 == 2 && A.r1 == 3",
    ),
    ("((A.r0 == 1))", "A.r0 == 1"),
    ("!!(A.r0 != 1)", "!!A.r0 != 1"),
    ("!(A.r0 == 1 && A.r1 == 2)", "!(A.r0 == 1 && A.r1 == 2)"),
    ("!(A.r0 == 1 || A.r1 == 2)", "!(A.r0 == 1 || A.r1 == 2)"),
    (
        "(A.r0 == 1 || A.r1 == 2) && !(A.r0 != 3)",
        "(A.r0 == 1 || A.r1 == 2) && !A.r0 != 3",
    ),
    (
        "(A.r0 == 1 && A.r1 == 2) && A.r0 != 3",
        "(A.r0 == 1 && A.r1 == 2) && A.r0 != 3",
    ),
    (
        "A.r0 != 3 || (A.r0 == 1 || A.r1 == 2)",
        "A.r0 != 3 || (A.r0 == 1 || A.r1 == 2)",
    ),
    (
        "(A.r0 == 1 && A.r1 == 2) || A.r0 != 3",
        "A.r0 == 1 && A.r1 == 2 || A.r0 != 3",
    ),
    (
        "!((A.r0 == 1 || !(A.r1 == 2 && A.r1 == 3)) && A.r0 == 4294967295)",
        "!((A.r0 == 1 || !(A.r1 == 2 && A.r1 == 3)) && A.r0 == 4294967295)",
    ),
];

/// Asserts that two tests have the same statements of this agent.
fn are_alike(
    rt: &(impl Abort + AllocGlobal),
    test: &Test,
    other: &Test,
    agent: usize,
) -> Result<(), Fail> {
    assert!(rt; agent < test.agents() && agent < other.agents());
    assert!(rt; test.agent_name(agent) == other.agent_name(agent));
    let body = format!(in rt.alloc(); "{:?}", test.body(agent))?;
    let again = format!(in rt.alloc(); "{:?}", other.body(agent))?;
    assert!(rt; body == again);
    Ok(())
}

/// Asserts that two tests say the same.
fn are_same(rt: &(impl Abort + AllocGlobal), test: &Test, other: &Test) -> Result<(), Fail> {
    assert!(rt; test.name() == other.name());
    assert!(rt; test.bytes() == other.bytes());
    assert!(rt; test.agents() == other.agents());
    for agent in 0..test.agents() {
        are_alike(rt, test, other, agent)?;
    }
    let check = format!(in rt.alloc(); "{:?}", test.check())?;
    let again = format!(in rt.alloc(); "{:?}", other.check())?;
    assert!(rt; check == again);
    Ok(())
}

/// A test's canonical text.
fn text_of(rt: &(impl Abort + AllocGlobal), test: &Test) -> Vec<u8> {
    show(rt.alloc(), test).expect(rt, "its text")
}

/// Asserts that a text's test has this canonical text, and that reading this text gives the same test.
fn is_shown(rt: &(impl Abort + AllocGlobal), text: &[u8], canonical: &[u8]) -> Result<(), Fail> {
    let test = test_of(rt, text);
    let shown = text_of(rt, &test);
    assert!(rt; shown.as_slice() == canonical);
    are_same(rt, &test, &test_of(rt, &shown))
}

/// The small text with this condition.
fn text_with_condition(alloc: Global, condition: &str) -> Result<String, AllocError> {
    format!(in alloc;
        "test t
bytes 2
agent A
r0 = U8[0]
r1 = U8[1]
check {condition}
"
    )
}

#[test]
fn canonical_texts(rt: HostRuntime) -> Result<(), Fail> {
    for text in CANONICAL {
        is_shown(&rt, text.as_bytes(), text.as_bytes())?;
    }
    Ok(())
}

#[test]
fn untidy_text(rt: HostRuntime) -> Result<(), Fail> {
    is_shown(&rt, UNTIDY.as_bytes(), TIDY.as_bytes())
}

#[test]
fn conditions(rt: HostRuntime) -> Result<(), Fail> {
    for (written, canonical) in CONDITIONS {
        let text = text_with_condition(rt.alloc(), written)?;
        let wanted = text_with_condition(rt.alloc(), canonical)?;
        is_shown(&rt, text.as_bytes(), wanted.as_bytes())?;
    }
    Ok(())
}
