// The ranges of and, guard and shifts.
ghost use Rattle.std.specs.Prelude.{◌≡◌, min};
ghost use Rattle.model.specs.Words.{arithmetic_shift};
ghost use Rattle.model.specs.Ranges.{range, guard_range, shr_range, sar_range};

use crate::covers::is_within;
use crate::knowledge::{ANYTHING, up_to};
use model::Range;
use words::arithmetic;

// andi: "0 to the smaller of highest a and imm"
pub(crate) fn andi(x: Range, imm: u32) -> Range
    ensures { result ≡ range 0 (min x.high imm) }
{
    up_to(x.high.min(imm))
}

// guard: "unchanged if inside the region, else DB to DL"
#[tactic(auto, unfolding(model::specs::Ranges::guard_range))]
pub(crate) fn guard(region: Range, x: Range) -> Range
    ensures { result ≡ guard_range region x }
{
    if is_within(x, region) { x } else { region }
}

// What a step makes of both ends.
fn both_ends<F: Fn(u32) -> u32>(x: Range, step: F) -> Range
    requires { F.IsAlwaysCallable step }
    ensures { F.post step x.low result.low × F.post step x.high result.high }
{
    Range {
        low: step(x.low),
        high: step(x.high),
    }
}

// shr: "both ends shifted"
pub(crate) fn shr(x: Range, amount: u8) -> Range
    ensures { result ≡ shr_range x amount }
{
    both_ends(x, |end| arithmetic::logical_shift(end, amount))
}

// sar: "both ends shifted if both lie on one side of 2^31, else anything"
#[tactic(auto, unfolding(model::specs::Ranges::sar_range))]
pub(crate) fn sar(x: Range, amount: u8) -> Range
    ensures { result ≡ sar_range x amount }
{
    if x.high < 0x8000_0000 || 0x8000_0000 <= x.low {
        both_ends(x, |end| arithmetic::arithmetic_shift(end, amount))
    } else {
        ANYTHING
    }
}
