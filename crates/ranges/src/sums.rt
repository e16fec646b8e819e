// Rule W: the ranges of sums and differences, from exact ends. An exact end is between -2^32 and 2^33; it is kept as a u64, raised
// by 2^32, so that none is negative.
ghost use Rattle.std.specs.Prelude.{◌≡◌, ◌-◌, ◌<◌, pos, ◌+ℤ◌, ◌-ℤ◌};
ghost use Rattle.std.proofs.Math.IntN.{sub_ℕ};
ghost use Rattle.model.specs.Words.{modulus};
ghost use Rattle.model.specs.Ranges.{rule_w};
ghost use Rattle.model.specs.Instructions.{bytes_of};

use crate::knowledge::ANYTHING;
use model::{Range, Width};

// 2^32, by which ends are raised.
pub const WORDS: u64 = 0x1_0000_0000;

// An exact end, raised.
#[derive(Clone, Copy)]
struct End {
    raised: u64,
    ghost bound: { raised < 0x3_0000_0000 },
}

// Rule W on two ends.
#[tactic(auto, unfolding(model::specs::Ranges::rule_w))]
fn rule_w(low: End, high: End) -> Range
    ensures { result ≡ rule_w (sub_ℕ low.raised modulus) (sub_ℕ high.raised modulus) }
{
    if low.raised / WORDS != high.raised / WORDS {
        return ANYTHING;
    }
    Range {
        low: (low.raised % WORDS) as u32,
        high: (high.raised % WORDS) as u32,
    }
}

// The sum of two ends.
fn sum_of_ends(x: u32, y: u32) -> End
    ensures { sub_ℕ result.raised modulus ≡ pos x +ℤ pos y }
{
    End {
        raised: WORDS + (u64::from(x) + u64::from(y)),
    }
}

// The difference of two ends.
fn difference_of_ends(x: u32, y: u32) -> End
    ensures { sub_ℕ result.raised modulus ≡ sub_ℕ x y }
{
    End {
        raised: WORDS + u64::from(x) - u64::from(y),
    }
}

// An end plus a signed displacement.
fn displaced(end: u32, imm: i32) -> End
    ensures { sub_ℕ result.raised modulus ≡ pos end +ℤ imm }
{
    End {
        raised: (WORDS + u64::from(end)).wrapping_add_signed(i64::from(imm)),
    }
}

// The same, as a number, to which the verifier adds.
pub fn displaced_end(end: u32, imm: i32) -> u64
    ensures { (sub_ℕ result modulus ≡ pos end +ℤ imm) × (result < 0x3_0000_0000) }
{
    displaced(end, imm).raised
}

// How far the last byte of an access lies behind its first. (By match: to take 1 from the width it would have to be proved that none is 0.)
pub fn last_byte(width: Width) -> u8
    ensures { result ≡ bytes_of width - 1 }
{
    match width {
        Width::One => 0,
        Width::Two => 1,
        Width::Four => 3,
    }
}

// An end less some bytes and a signed displacement, raised.
pub(crate) fn end_less(end: u32, bytes: u8, imm: i32) -> u64
    ensures { sub_ℕ result modulus ≡ sub_ℕ end bytes -ℤ imm }
{
    (WORDS + u64::from(end) - u64::from(bytes)).wrapping_sub_signed(i64::from(imm))
}

// add: "rule W on the two sums of ends"
pub(crate) fn add(x: Range, y: Range) -> Range
    ensures { result ≡ rule_w (pos x.low +ℤ pos y.low) (pos x.high +ℤ pos y.high) }
{
    rule_w(sum_of_ends(x.low, y.low), sum_of_ends(x.high, y.high))
}

// addi: "rule W on both ends plus imm"
pub(crate) fn addi(x: Range, imm: i32) -> Range
    ensures { result ≡ rule_w (pos x.low +ℤ imm) (pos x.high +ℤ imm) }
{
    rule_w(displaced(x.low, imm), displaced(x.high, imm))
}

// sub: "rule W on lowest a − highest b, highest a − lowest b"
pub(crate) fn sub(x: Range, y: Range) -> Range
    ensures { result ≡ rule_w (sub_ℕ x.low y.high) (sub_ℕ x.high y.low) }
{
    rule_w(
        difference_of_ends(x.low, y.high),
        difference_of_ends(x.high, y.low),
    )
}
