// The window rule: how far an acknowledgement moves the maximum, in f64, and where it is bounded.
ghost use Rattle.std.specs.Prelude.{◌≡◌, ◌+ℤ◌, false, T, pos};
ghost use Rattle.std.specs.Int.{w64, saturate_unsigned};
ghost use Rattle.std.specs.Float.Ieee as Ieee;
ghost use Rattle.std.specs.Float.{fin, binary64};
ghost use Rattle.congestion.specs.Numbers.{minimum_of};
ghost use Rattle.congestion.specs.Window.{held_of, off_of, adjustment_of, next_maximum_of};

use crate::numbers::Numbers;

// Where delays are held, and the largest maximum.
const TOP: u64 = Numbers::LARGEST_MAXIMUM as u64;

// The whole part of an x from 1 up to 2^64: the digits of its bit pattern, shifted.
// (Not std's `saturating_f64_to_i64`: document 01, "Forms for each place", wants it from the bits.)
fn digits_of(x: f64) -> u64
    requires at_least_one { T (Ieee.le (fin false 1 (pos 0)) x) }
    requires below_two_to_64 { T (Ieee.lt x (fin false 1 (pos 64))) }
    ensures { result ≡ Ieee.to_unsigned 64 x }
{
    // x is `digits` * 2 ^ (`exponent` - 1075)
    let bits = x.to_bits();
    let exponent = bits >> 52;
    let digits = (bits & 0xf_ffff_ffff_ffff) | 0x10_0000_0000_0000;
    if exponent <= 1075 {
        digits >> (1075 - exponent)
    } else {
        digits << (exponent - 1075)
    }
}

// x truncated toward zero. Out of the range of an i64 it is the nearer end, and at a NaN 0.
fn truncated(x: f64) -> i64
    ensures { result ≡ Ieee.to_signed 63 x }
{
    if x >= 1.0 {
        if x < 9223372036854775808.0 {
            digits_of(x) as i64
        } else {
            9223372036854775807
        }
    } else if x <= -1.0 {
        if x >= -9223372036854775808.0 {
            // the whole part of -x can be 2^63, which no i64 holds, so one comes off first
            -1 - ((digits_of(-x) - 1) as i64)
        } else {
            -9223372036854775808
        }
    } else {
        0
    }
}

// A delay, held at 2^32 - 1.
fn held(delay: u64) -> u32
    ensures { result ≡ held_of delay }
{
    delay.min(TOP) as u32
}

// How far the delay above its base is below the target, as a float: negative where it is above.
// (Two arms of a u32 each, which a float holds exactly; std's i64 to f64 rounds.)
fn off_target(target: u32, delay: u32, base: u32) -> f64
    ensures { result ≡ Ieee.of_int binary64 (off_of target delay base) }
{
    let queue = delay.saturating_sub(base);
    if queue <= target {
        (target - queue) as f64
    } else {
        -((queue - target) as f64)
    }
}

// What the acknowledgement of `len` bytes adds to the maximum, while in flight still counts them.
pub(crate) fn adjustment(numbers: Numbers, base: u64, delay: u64, len: u32) -> i64
    ensures { result ≡ adjustment_of numbers.gain numbers.increase numbers.target delay base len numbers.in_flight }
{
    if numbers.in_flight == 0 {
        return 0;
    }
    let off = off_target(numbers.target, held(delay), held(base));
    let step = numbers.gain
        * (numbers.increase as f64)
        * (off / (numbers.target as f64))
        * ((len as f64) / (numbers.in_flight as f64));
    truncated(step)
}

// The maximum moved by the adjustment: a sum below zero is held at 0. None is too large.
fn moved_maximum(maximum: u32, adjustment: i64) -> u64
    ensures { result ≡ saturate_unsigned w64 (pos maximum +ℤ adjustment) }
{
    (maximum as u64).saturating_add_signed(adjustment)
}

// The new maximum: the smallest of the larger of the minimum and maximum + adjustment, maximum +
// increase, and 2^32 - 1.
#[tactic(auto, using(crate::specs::Laws::Window::sum_held))]
pub(crate) fn next_maximum(numbers: Numbers, adjustment: i64) -> u32
    ensures { result ≡ next_maximum_of (minimum_of numbers) numbers.increase numbers.maximum adjustment }
{
    let maximum = numbers.maximum as u64;
    let sum = moved_maximum(numbers.maximum, adjustment);
    sum.max(numbers.minimum())
        .min(maximum + (numbers.increase as u64))
        .min(TOP) as u32
}
