// The tables: made once for a call, of a module that was read, and lent to every lookup.
ghost use Rattle.std.specs.Prelude.{◌≡◌};
ghost use Rattle.model.specs.Lookup.{bit_table, count_table, found_by};
ghost use Rattle.reader.specs.Readings.{program};

use reader::module::Module;
use reader::{field, target};

// The instructions whose bits are one word, and the groups that the most instructions have.
const GROUP: usize = 64;

pub const GROUPS: usize = field::MOST_INSTRUCTIONS as usize / GROUP;

// A bit for each instruction, set for a target.
pub(crate) fn mark(module: &Module, bits: &mut [u64; GROUPS])
    ensures { bits.new ≡ bit_table (program «module».now).targets }
{
    *bits = [0; GROUPS];
    for j in 0..module.held.targets {
        let index = usize::from(target::index_of(module.targets, j));
        bits[index / GROUP] |= 1 << (index % GROUP);
    }
}

// For each group of the module the number of targets before it, which may be 256; 0 for those behind.
pub(crate) fn count(module: &Module, bits: &[u64; GROUPS], counts: &mut [u16; GROUPS])
    requires { bits.now ≡ bit_table (program «module».now).targets }
    ensures { counts.new ≡ count_table «module».now.held.instructions (program «module».now).targets }
{
    *counts = [0; GROUPS];
    let mut before: u32 = 0;
    for group in 0..(module.held.instructions as usize).div_ceil(GROUP) {
        counts[group] = before as u16;
        before += bits[group].count_ones();
    }
}

// The number, counted from 0, of the target at an index, as the tables say, whatever they hold.
pub(crate) fn find(bits: &[u64; GROUPS], counts: &[u16; GROUPS], index: usize) -> Option<u32>
    ensures { result ≡ found_by bits.now counts.now index }
{
    let group = index / GROUP;
    if group >= GROUPS {
        return None;
    }
    let word = bits[group];
    let bit = 1u64 << (index % GROUP);
    if word & bit == 0 {
        return None;
    }
    Some(u32::from(counts[group]) + (word & (bit - 1)).count_ones())
}
