// The eight registers, lent. An operand above 7 names none: it reads as 0, and nothing is stored.
ghost use Rattle.std.specs.Prelude.{◌≡◌, slice_set};
ghost use Rattle.model.specs.Instructions.{reg};

pub(crate) fn get(registers: &[u32; 8], r: u8) -> u32
    ensures { result ≡ reg registers.now r }
{
    registers.get(usize::from(r)).copied().unwrap_or(0)
}

pub(crate) fn put(registers: &mut [u32; 8], r: u8, value: u32)
    ensures { registers.new ≡ slice_set registers.old r value }
{
    let i = usize::from(r);
    if i < registers.len() {
        registers[i] = value;
    }
}
