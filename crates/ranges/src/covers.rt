// A range beside another: whether it lies within it, and the smallest that covers both.
ghost use Rattle.std.specs.Prelude.{◌≡◌};
ghost use Rattle.model.specs.Claims.{within, covering};

use model::Range;

pub fn is_within(x: Range, claim: Range) -> bool
    ensures { result ≡ within x claim }
{
    claim.low <= x.low && x.high <= claim.high
}

// Beside `common` of cuts, with the least for the greatest: one function that is told which end is which would be longer.
pub fn covering(x: Range, y: Range) -> Range
    ensures { result ≡ covering x y }
{
    Range {
        low: x.low.min(y.low),
        high: x.high.max(y.high),
    }
}
