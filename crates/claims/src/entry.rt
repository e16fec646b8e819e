// A target while its claim is worked out: a row of the table.
ghost use Rattle.std.specs.Prelude.{◌≡◌, Bool, ℕ, ◌+◌, ◌≤◌, false, not, ◌||◌};
ghost use Rattle.model.specs.Ranges.{range_of};
ghost use Rattle.model.specs.Claims.{fresh, within, widened, grow, reached, covers, bit, counted};
ghost use Rattle.claims.specs.Rows.{entry_of, FewGrown};

use model::{Range, Ranges};
use ranges::{covers, knowledge};
use std::array;

// Of one register: in how many earlier sweeps it has grown, and whether it has in this one.
#[derive(Clone, Copy)]
pub(crate) struct Growth {
    pub earlier: u8,
    pub now: bool,
}

// In so many sweeps a register grows to what covers it, and in the next in which it grows to anything.
const SWEEPS_OF_GROWTH: u8 = 8;

impl Growth {
    // The register's range afterwards.
    #[tactic(auto, unfolding(model::specs::Claims::widened))]
    fn widened(self, claim: Range, x: Range) -> Range
        ensures { result ≡ widened self.earlier claim x }
    {
        if covers::is_within(x, claim) {
            claim
        } else if self.earlier < SWEEPS_OF_GROWTH {
            covers::covering(claim, x)
        } else {
            Range {
                low: 0,
                high: u32::MAX,
            }
        }
    }

    // It grows in this sweep, now or before.
    fn grown(self, claim: Range, x: Range) -> Growth
        ensures { result ≡ record self { now = self.now || not (within x claim) } }
    {
        Growth {
            now: self.now || !covers::is_within(x, claim),
            ..self
        }
    }

    // The sweep is over.
    fn counted(self) -> Growth
        requires { self.earlier ≤ 9 }
        ensures { result ≡ record { earlier = self.earlier + bit self.now; now = false } }
    {
        Growth {
            earlier: self.earlier + u8::from(self.now),
            now: false,
        }
    }
}

// Its claim, if it is reached, and the growth of each register.
#[derive(Clone, Copy)]
pub(crate) struct Row {
    pub claim: Option<Ranges>,
    pub growth: [Growth; 8],
}

impl Row {
    // A target, reached or not, that has not grown.
    pub(crate) fn fresh(claim: Option<Ranges>) -> Row
        ensures { (i : ℕ) (indirect : Bool) → entry_of i indirect result ≡ fresh i indirect (claim) }
    {
        Row {
            claim,
            growth: [Growth {
                earlier: 0,
                now: false,
            }; 8],
        }
    }

    // Each register is widened to the ranges of an edge.
    fn grow(&self, claim: Ranges, ranges: Ranges) -> Row
        ensures { (i : ℕ) (indirect : Bool) → entry_of i indirect result ≡ grow (entry_of i indirect self.now) claim ranges }
    {
        let after: [Range; 8] = array::from_fn(|r| {
            self.growth[r].widened(
                knowledge::range_of(claim, r as u8),
                knowledge::range_of(ranges, r as u8),
            )
        });
        Row {
            claim: Some(Ranges {
                lows: array::from_fn(|r| after[r].low),
                highs: array::from_fn(|r| after[r].high),
            }),
            growth: array::from_fn(|r| {
                self.growth[r].grown(
                    knowledge::range_of(claim, r as u8),
                    knowledge::range_of(ranges, r as u8),
                )
            }),
        }
    }

    // The target is reached along an edge: "the first reaching of its door is no growth".
    pub(crate) fn reach(&self, ranges: Ranges) -> Row
        ensures { (i : ℕ) (indirect : Bool) → entry_of i indirect result ≡ reached (entry_of i indirect self.now) (self.now.claim) ranges }
    {
        match self.claim {
            Some(claim) => self.grow(claim, ranges),
            None => Row::fresh(Some(ranges)),
        }
    }

    // Nothing is to be widened: the claim is fixed, or covers the ranges already.
    pub(crate) fn is_covered(&self, indirect: bool, ranges: Ranges) -> bool
        ensures { (i : ℕ) → result ≡ covers ranges (entry_of i indirect self.now) }
    {
        indirect
            || self
                .claim
                .is_some_and(|claim| knowledge::lies_within(ranges, claim))
    }

    // The target when its sweep is over.
    pub(crate) fn counted(&self) -> Row
        requires { FewGrown self.now.growth }
        ensures { (i : ℕ) (indirect : Bool) → entry_of i indirect result ≡ counted (entry_of i indirect self.now) }
    {
        Row {
            claim: self.claim,
            growth: array::from_fn(|r| self.growth[r].counted()),
        }
    }
}
