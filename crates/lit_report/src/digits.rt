//! Numbers as decimal digits.

ghost use Rattle.std.specs.Prelude.{◌≡◌, ◌≤◌, length, drop};
ghost use Rattle.std.specs.Fmt.{decimal};
ghost use Rattle.lit_report.specs.declared.digits.TheConstants.{DIGIT_LIMIT as DIGITS};

/// How many digits a number has at the most.
pub(crate) const DIGIT_LIMIT: usize = 20;

/// Writes a number as decimal digits, up to the end of the room, and gives where they begin.
pub(crate) fn write_digits(digits: &mut [u8], number: u64) -> usize
    requires { length digits.old ≡ DIGITS }
    ensures known { result ≤ DIGITS }
    ensures text { drop result digits.new ≡ decimal number }
{
    let mut left = number;
    let mut start = digits.len();
    while left >= 10 {
        start -= 1;
        digits[start] = b'0' + (left % 10) as u8;
        left /= 10;
    }
    start -= 1;
    digits[start] = b'0' + left as u8;
    start
}
