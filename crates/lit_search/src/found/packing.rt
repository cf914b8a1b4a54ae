//! Order-preserving packing of outcomes into numbers, so that few outcomes are compared value by value.

ghost use Rattle.std.specs.Prelude.{◌≡◌, ◌+◌, ◌^◌, ◌≤◌};
ghost use Rattle.lit_search.specs.Internal.Packed.{packed as packed_of};

/// The digits of small values: up to nine, each below 127, or 127 where the value is no less.
pub(crate) const SMALL_TOP: u128 = 127;

pub(crate) const SMALL_COUNT: usize = 9;

/// The digits of large values: up to four.
pub(crate) const LARGE_TOP: u128 = 2_147_483_647;

pub(crate) const LARGE_COUNT: usize = 4;

/// The first values, so many at the most, as the digits of a number, each below `top`. The first value that is no less is the
/// digit `top`, and the digits behind it are 0, as they are where there is no value.
pub(crate) fn packed(values: &[u32], top: u128, count: usize) -> u128
    requires { (top + 1) ^ count ≤ 2 ^ 127 }
    ensures { result ≡ packed_of top count values.now }
{
    let mut number: u128 = 0;
    let mut weight: u128 = 1;
    let mut place = count;
    // From the last digit on: a value that is no less than `top` then clears the digits behind it.
    while place > 0 {
        place -= 1;
        number = match values.get(place) {
            Some(value) if u128::from(*value) < top => u128::from(*value) * weight + number,
            Some(_) => top * weight,
            None => 0,
        };
        weight *= top + 1;
    }
    number
}
