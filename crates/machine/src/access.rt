// Access: where the bytes of a load or store lie, and moving them.
ghost use Rattle.std.specs.Prelude.{◌≡◌, ◌+◌, ◌≤◌, length};
ghost use Rattle.model.specs.Words.{read_bytes, write_bytes};
ghost use Rattle.model.specs.Instructions.{bytes_of, width_read, carried};
ghost use Rattle.model.specs.Step.{in_region, in_zones};
ghost use Rattle.machine.specs.Core.{reach_of};

use model::{Ending, LoadWidth, Width};
use reader::module::Module;
use words::arithmetic::{carry_sign, difference};
use words::bytes::{byte_at, read_u16, read_u32};

// ---- where they lie, by distances that wrap: no number has more than 32 bits (document 02, ticket 4)

// The region test, and below that of region and guard zones: document 01 has the two tests, and one with the guard as an argument would
// need a bound on it. An address below the base is so far above it, wrapped, that it lies past the region.
fn in_region(m: &Module, address: u32, width: Width) -> bool
    ensures { result ≡ in_region m.now.layout address (bytes_of width) }
{
    let layout = m.layout;
    let distance = difference(address, layout.base);
    let most = layout.size - u32::from(width);
    distance <= most
}

// The same of region and guard zones.
fn in_zones(m: &Module, address: u32, width: Width) -> bool
    ensures { result ≡ in_zones m.now.layout address (bytes_of width) }
{
    let layout = m.layout;
    let distance = difference(address, layout.base - layout.guard);
    let most = layout.size + layout.guard + layout.guard - u32::from(width);
    distance <= most
}

// The access test: the offset in the region, or how the run ends.
#[tactic(auto, using(crate::proofs::Reaching::from_base), unfolding(crate::specs::Core::reach_of))]
pub(crate) fn reach_of(m: &Module, address: u32, width: Width) -> Result<u32, Ending>
    ensures { result ≡ reach_of m.now.layout address width }
{
    if in_region(m, address, width) {
        Ok(address - m.layout.base)
    } else if in_zones(m, address, width) {
        Err(Ending::Trapped)
    } else {
        Err(Ending::Violated)
    }
}

// ---- moving them

// The number of the bytes at an offset.
#[tactic(auto, unfolding(model::specs::Words::read_bytes))]
fn read(region: &[u8], at: usize, width: Width) -> u32
    ensures { result ≡ read_bytes (bytes_of width) region.now at }
{
    match width {
        Width::One => u32::from(byte_at(region, at)),
        Width::Two => u32::from(read_u16(region, at)),
        Width::Four => read_u32(region, at),
    }
}

// What a load makes of them.
#[tactic(auto, unfolding(model::specs::Instructions::carried, model::specs::Words::read_bytes))]
pub(crate) fn carried(region: &[u8], at: usize, width: LoadWidth) -> u32
    ensures { result ≡ carried width (read_bytes (bytes_of (width_read width)) region.now at) }
{
    match width {
        LoadWidth::Unsigned { width } => read(region, at, width),
        LoadWidth::SignedOne => carry_sign(u16::from(byte_at(region, at)), 0x80),
        LoadWidth::SignedTwo => carry_sign(read_u16(region, at), 0x8000),
    }
}

// The low N bytes of a number, at an offset. That they are all there the access test has shown: a step would pay for another.
#[tactic(auto, using(words::proofs::Writes::put_written))]
fn store<const N: usize>(region: &mut [u8], at: usize, x: u32)
    requires few { N ≤ 4 }
    requires there { at + N ≤ length region.old }
    ensures { region.new ≡ write_bytes N x region.old at }
{
    region[at..at + N].copy_from_slice(&x.to_le_bytes()[..N]);
}

// The low bytes of a number, stored at an offset.
pub(crate) fn write(region: &mut [u8], at: usize, width: Width, x: u32)
    requires { at + bytes_of width ≤ length region.old }
    ensures { region.new ≡ write_bytes (bytes_of width) x region.old at }
{
    match width {
        Width::One => store::<1>(region, at, x),
        Width::Two => store::<2>(region, at, x),
        Width::Four => store::<4>(region, at, x),
    }
}
