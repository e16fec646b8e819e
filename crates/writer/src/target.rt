// A target (door) as a row of a table: index, kind, and for r0 to r7 a lowest and a highest value, as numbers. Its rules, and its
// claim among the bytes of a file.
ghost use Rattle.std.specs.Prelude.{◌≡◌, cond, ◌+◌, ◌<◌, leb, length};
ghost use Rattle.model.specs.File.{is_in_order, is_good_target};
ghost use Rattle.model.specs.Claims.{write_ranges};
ghost use Rattle.writer.specs.Rows.{claim_of, targets_at};

use model::Ranges;
use reader::target;
use reader::target::{INDIRECT, TARGET};
use std::array;

pub type TargetRow = [u32; 18];

// The claim of a row.
pub fn claim_of(row: TargetRow) -> Ranges
    ensures { result ≡ claim_of row }
{
    Ranges {
        lows: array::from_fn(|r| row[2 + 2 * r]),
        highs: array::from_fn(|r| row[3 + 2 * r]),
    }
}

// The first target is indirect, at index 0; every later one stands above the one before it. (The reader asks the same of
// bytes: one function for both would take a closure for each number that it reads. What both ask of a claim is one function.)
fn is_in_order(targets: &[TargetRow], j: usize) -> bool
    requires { j < length targets.now }
    ensures { result ≡ is_in_order (targets_at targets.now) j }
{
    if j == 0 {
        return targets[0][0] == 0 && targets[0][1] == u32::from(INDIRECT);
    }
    targets[j - 1][0] < targets[j][0]
}

// The rules of a target, in a module of n instructions: 7.
#[tactic(auto, unfolding(model::specs::File::is_good_target, model::specs::File::is_placed_target))]
pub(crate) fn is_good_target(n: u32, targets: &[TargetRow], j: usize) -> bool
    requires { j < length targets.now }
    ensures { result ≡ is_good_target n (targets_at targets.now) j }
{
    let row = targets[j];
    let claim = claim_of(row);
    row[0] < n
        && row[1] < 2
        && (row[1] != u32::from(INDIRECT) || target::is_indirect_claim(claim))
        && is_in_order(targets, j)
        && target::is_ordered(claim)
}

// A claim over that of the target that begins at an offset of the bytes; nothing where the target is not all there.
#[tactic(auto, unfolding(model::specs::Claims::write_ranges))]
pub fn write_claim(bytes: &mut [u8], start: usize, claim: Ranges)
    ensures { bytes.new ≡ cond (leb (start + 68) (length bytes.old)) (write_ranges 8 start claim bytes.old) bytes.old }
{
    if bytes.len() < TARGET || bytes.len() - TARGET < start {
        return;
    }
    let Ranges { lows, highs } = claim;
    for r in 0..8 {
        words::bytes::write_u32(bytes, start + 4 + 8 * r, lows[r]);
        words::bytes::write_u32(bytes, start + 8 + 8 * r, highs[r]);
    }
}
