// What is known of the eight registers.
ghost use Rattle.std.specs.Prelude.{◌≡◌};
ghost use Rattle.model.specs.Words.{top};
ghost use Rattle.model.specs.Ranges.{range, range_of, put, unknown, lies_within};

use crate::covers::is_within;
use model::{Range, Ranges};

// "'anything', 0 to 2^32 − 1"
pub(crate) const ANYTHING: Range = Range {
    low: 0,
    high: u32::MAX,
};

pub(crate) fn up_to(high: u32) -> Range
    ensures { result ≡ range 0 high }
{
    Range { low: 0, high }
}

pub(crate) fn up_from(low: u32) -> Range
    ensures { result ≡ range low top }
{
    Range {
        low,
        high: u32::MAX,
    }
}

// Nothing is known of any register.
pub fn unknown() -> Ranges
    ensures { result ≡ unknown }
{
    Ranges {
        lows: [ANYTHING.low; 8],
        highs: [ANYTHING.high; 8],
    }
}

// The range of a register; an operand above 7 names none and has 0 to 0.
pub fn range_of(known: Ranges, r: u8) -> Range
    ensures { result ≡ range_of known r }
{
    let i = usize::from(r);
    Range {
        low: known.lows.get(i).copied().unwrap_or(0),
        high: known.highs.get(i).copied().unwrap_or(0),
    }
}

// The ranges with another one for a register.
pub(crate) fn put(known: Ranges, r: u8, x: Range) -> Ranges
    ensures { result ≡ put known r x }
{
    let mut next = known;
    let i = usize::from(r);
    if i < next.lows.len() {
        next.lows[i] = x.low;
        next.highs[i] = x.high;
    }
    next
}

// Each range lies within the claim's.
pub fn lies_within(known: Ranges, claim: Ranges) -> bool
    ensures { result ≡ lies_within known claim }
{
    (0..8).all(|r| is_within(range_of(known, r), range_of(claim, r)))
}
