// A module with the tables of its targets, which are lent: what all go by that look a target up.
ghost use Rattle.std.specs.Prelude.{◌≡◌};
ghost use Rattle.model.specs.Lookup.{bit_table, count_table, number_at};
ghost use Rattle.reader.specs.Readings.{program};

use crate::tables::{self, GROUPS};
use reader::module::Module;

#[derive(Clone, Copy)]
pub struct Indexed<'a> {
    pub module: Module<'a>,
    bits: &'a [u64; GROUPS],
    counts: &'a [u16; GROUPS],
    ghost tabled: { (bits.now ≡ bit_table (program «module»).targets) × (counts.now ≡ count_table «module».held.instructions (program «module»).targets) },
}

impl<'a> Indexed<'a> {
    // The tables are made here, whatever they held.
    pub fn of(
        module: Module<'a>,
        bits: &'a mut [u64; GROUPS],
        counts: &'a mut [u16; GROUPS],
    ) -> Indexed<'a>
        ensures { result.«module» ≡ «module».entry }
    {
        tables::mark(&module, bits);
        tables::count(&module, bits, counts);
        Indexed {
            module,
            bits,
            counts,
        }
    }

    // The number, counted from 0, of the target at an index.
    pub fn number_at(&self, index: usize) -> Option<u32>
        ensures { result ≡ number_at (program self.now.«module»).targets index }
    {
        tables::find(self.bits, self.counts, index)
    }
}
