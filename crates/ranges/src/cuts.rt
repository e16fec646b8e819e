// Cuts, and rule B.
ghost use Rattle.std.specs.Prelude.{◌≡◌};
ghost use Rattle.std.proofs.Math.IntN.{sub_ℕ};
ghost use Rattle.model.specs.Words.{modulus};
ghost use Rattle.model.specs.Ranges.{common, is_empty, cut, between, cut_both, cut_for, rule_b};

use crate::knowledge::{put, range_of, up_from, up_to};
use crate::sums::WORDS;
use model::{Pair, Range, Ranges, Test};

// What two ranges have in common.
fn common(x: Range, y: Range) -> Range
    ensures { result ≡ common x y }
{
    Range {
        low: x.low.max(y.low),
        high: x.high.min(y.high),
    }
}

fn is_empty(x: Range) -> bool
    ensures { result ≡ is_empty x }
{
    x.high < x.low
}

// A range is cut to what lies from one whole number to another, both raised: "if any cut would leave an empty range, none of
// that cut is made".
#[tactic(auto, unfolding(model::specs::Ranges::cut, model::specs::Ranges::between))]
pub(crate) fn cut_between(x: Range, from: u64, to: u64) -> Range
    ensures { result ≡ cut x (between (sub_ℕ from modulus) (sub_ℕ to modulus)) }
{
    let lowest = from.max(WORDS + u64::from(x.low));
    let highest = to.min(WORDS + u64::from(x.high));
    if highest < lowest {
        return x;
    }
    // both fit, as is proved: a conversion that can fail would test it again
    Range {
        low: (lowest - WORDS) as u32,
        high: (highest - WORDS) as u32,
    }
}

// x is cut to p and y to q, both or none.
#[tactic(auto, unfolding(model::specs::Ranges::cut_both))]
fn cut_both(x: Range, p: Range, y: Range, q: Range) -> Pair
    ensures { result ≡ cut_both x p y q }
{
    let left = common(x, p);
    let right = common(y, q);
    if is_empty(left) || is_empty(right) {
        return Pair {
            first: x,
            second: y,
        };
    }
    Pair {
        first: left,
        second: right,
    }
}

// Rule B on the ranges of two registers that differ, along the taken edge or the other. "Equal and taken: each is cut to the
// common part. Equal and not taken: nothing. Unsigned and taken: a at most highest b − 1, b at least lowest a + 1. Unsigned
// and not taken: a at least lowest b, b at most highest a."
#[tactic(auto, unfolding(model::specs::Ranges::cut_both))]
fn cut_for(test: Test, taken: bool, x: Range, y: Range) -> Pair
    ensures { result ≡ cut_for test taken x y }
{
    let uncut = Pair {
        first: x,
        second: y,
    };
    match (test, taken) {
        (Test::Equal, true) => cut_both(x, y, y, x),
        (Test::Below, true) => match (y.high.checked_sub(1), x.low.checked_add(1)) {
            (Some(most), Some(least)) => cut_both(x, up_to(most), y, up_from(least)),
            _ => uncut,
        },
        (Test::Below, false) => cut_both(x, up_from(y.low), y, up_to(x.high)),
        (Test::Equal, false) | (Test::SignedBelow, _) => uncut,
    }
}

// "Rule B: where a and b are the same register, or w is 2, nothing is cut."
#[tactic(auto, unfolding(model::specs::Ranges::rule_b))]
pub(crate) fn rule_b(test: Test, taken: bool, a: u8, b: u8, known: Ranges) -> Ranges
    ensures { result ≡ rule_b test taken a b known }
{
    if a == b {
        return known;
    }
    let pair = cut_for(test, taken, range_of(known, a), range_of(known, b));
    put(put(known, a, pair.first), b, pair.second)
}
