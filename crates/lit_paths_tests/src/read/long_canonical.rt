//! A canonical text of as many bytes as a text may have, and of one more.

use super::asserted::body_of;
use lit_read::{ReadFault, ReadKind, read, show};
use lit_syntax::TEXT_LIMIT;
use std::alloc::{AllocError, AllocGlobal, Global};
use std::process::Abort;
use std::test::Fail;

/// A text with this name, this load again and again, and this end.
fn loading(alloc: Global, name: &str, load: &str, check: &str) -> Result<String, AllocError> {
    let mut text = format!(in alloc;
        "test {name}
bytes 1
agent A
"
    )?;
    for _ in 0..5_954 {
        text.push_str(load)?;
    }
    text.push_str(check)?;
    Ok(text)
}

/// The canonical text of the test that a text spells.
fn shown(alloc: Global, text: &str) -> Result<Vec<u8>, Fail> {
    let test = read(alloc, text.as_bytes())?;
    Ok(show(alloc, &test)?)
}

/// Asserts that a canonical text of all those loads is read if it is not too long, and else refused for that.
fn is_read_if_short(rt: &(impl Abort + AllocGlobal), shown: &[u8]) {
    match read(rt.alloc(), shown) {
        Ok(again) => {
            assert!(rt; shown.len() == TEXT_LIMIT);
            assert_eq!(rt; body_of(rt, &again, 0).len(), 5_954);
        }
        Err(fault) => {
            let too_long = ReadFault {
                kind: ReadKind::TooLong,
                line: 1,
            };
            assert!(rt; shown.len() > TEXT_LIMIT && fault == too_long);
        }
    }
}

/// With no blanks a text is shorter than its canonical text, and so can be read where that cannot.
#[test]
fn canonical_texts_at_the_limit(rt: HostRuntime) -> Result<(), Fail> {
    let alloc = rt.alloc();
    for (name, length) in [("long", TEXT_LIMIT), ("longs", TEXT_LIMIT + 1)] {
        let text = loading(alloc, name, "r0=U8[0]\n", "check A.r0==0")?;
        let shown = shown(alloc, text.as_str())?;
        let wanted = loading(alloc, name, "r0 = U8[0]\n", "check A.r0 == 0\n")?;
        assert!(rt; shown.as_slice() == wanted.as_bytes());
        assert_eq!(rt; shown.len(), length);
        is_read_if_short(&rt, &shown);
    }
    Ok(())
}
