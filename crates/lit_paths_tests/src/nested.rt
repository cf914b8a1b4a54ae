//! A text with one `if` in the other, blank lines and comments.

/// Agent `A` has eight statements and six paths, and agent `B` one of each.
pub const NESTED: &str = "test nested
bytes 4

agent A
r0 = Atomics.compareExchange(U8, 0, 0, 1)
// a comment
if r0 == 0 { // and one more
  U8[1] = 1
  if r0 != 1 {
  } else {
    r1 = U8[2]
  }
} else {
  r2 = U8[1]

  U8[2] = 2
}
r3 = U8[3]
agent B
Atomics.store(U8, 0, 1)
check A.r0 == 0
";
