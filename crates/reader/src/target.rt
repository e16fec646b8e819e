// Targets (doors): index, kind, claim, and refusal 7. Each function takes the targets' bytes; bytes past the end are zero. Bytes and number
// go apart, since callers have many numbers for one slice.
ghost use Rattle.std.specs.Prelude.{◌≡◌, ◌+◌, ◌*◌, ◌<◌, eqb, get_or};
ghost use Rattle.model.specs.File.{target_start, target_index, target_kind, claim_in, target_row_in, is_indirect_claim, is_in_order, is_placed_target, is_ordered_claim};
ghost use Rattle.reader.specs.Readings.{asked};

use model::Ranges;
use std::array;

// The bytes of a target.
pub const TARGET: usize = 68;

// The kind of an indirect target.
pub const INDIRECT: u8 = 1;

// Where the target of a number begins.
pub fn target_start(j: u32) -> usize
    ensures { (result ≡ target_start j) × (result < 0x80_0000_0000) }
{
    TARGET * (j as usize)
}

pub fn index_of(targets: &[u8], j: u32) -> u16
    ensures { result ≡ target_index targets.now j }
{
    words::bytes::read_u16(targets, target_start(j))
}

pub fn kind_of(targets: &[u8], j: u32) -> u8
    ensures { result ≡ target_kind targets.now j }
{
    words::bytes::byte_at(targets, target_start(j) + 2)
}

// The target of a number is indirect.
pub fn is_indirect(targets: &[u8], j: u32) -> bool
    ensures { result ≡ eqb (target_kind targets.now j) 1 }
{
    kind_of(targets, j) == INDIRECT
}

// The byte behind the kind, which is zero in a good target. Beside `kind_of`: another offset, which no caller should choose.
fn zero_byte(targets: &[u8], j: u32) -> u8
    ensures { result ≡ get_or targets.now (target_start j + 3) 0 }
{
    words::bytes::byte_at(targets, target_start(j) + 3)
}

// The claim of the target of a number.
pub fn claim_in(targets: &[u8], j: u32) -> Ranges
    ensures { result ≡ claim_in targets.now j }
{
    let start = target_start(j);
    Ranges {
        lows: array::from_fn(|r| words::bytes::read_u32(targets, start + 4 + 8 * r)),
        highs: array::from_fn(|r| words::bytes::read_u32(targets, start + 8 + 8 * r)),
    }
}

// "No lowest exceeds its highest."
pub fn is_ordered(claim: Ranges) -> bool
    ensures { result ≡ is_ordered_claim claim }
{
    let Ranges { lows, highs } = claim;
    for r in 0..8 {
        if highs[r] < lows[r] {
            return false;
        }
    }
    true
}

// What an indirect target claims: anything, for each register.
pub fn is_indirect_claim(claim: Ranges) -> bool
    ensures { result ≡ is_indirect_claim claim }
{
    let Ranges { lows, highs } = claim;
    for r in 0..8 {
        if lows[r] != 0 || highs[r] != u32::MAX {
            return false;
        }
    }
    true
}

// The first target is indirect, at index 0; every later one stands above the one before it.
fn is_in_order(targets: &[u8], j: u32) -> bool
    ensures { result ≡ is_in_order (target_row_in targets.now) j }
{
    if j == 0 {
        return index_of(targets, 0) == 0 && kind_of(targets, 0) == INDIRECT;
    }
    index_of(targets, j - 1) < index_of(targets, j)
}

// The rules of a target, in a module of n instructions, but for the order of its claim's ends.
#[tactic(auto, unfolding(model::specs::File::is_placed_target))]
fn is_placed_target(n: u32, targets: &[u8], j: u32, claim: Ranges) -> bool
    requires { claim ≡ claim_in targets.now j }
    ensures { result ≡ is_placed_target n (target_row_in targets.now) j }
{
    let kind = kind_of(targets, j);
    (index_of(targets, j) as u32) < n
        && kind < 2
        && zero_byte(targets, j) == 0
        && (kind != INDIRECT || is_indirect_claim(claim))
        && is_in_order(targets, j)
}

// The rules of a target; where claims are ignored, but for the order of their ends.
#[tactic(auto, unfolding(model::specs::File::is_good_target))]
pub fn is_good_target(n: u32, targets: &[u8], j: u32, claims: bool) -> bool
    ensures { result ≡ asked claims n (target_row_in targets.now) j }
{
    let claim = claim_in(targets, j);
    is_placed_target(n, targets, j, claim) && (!claims || is_ordered(claim))
}
