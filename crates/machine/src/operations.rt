// Operations: what an instruction does once its operands are read. Where there is no next index nothing is changed. Module, pc, registers
// and region stay apart: see stepping.
ghost use Rattle.std.specs.Prelude.{◌≡◌, length};
ghost use Rattle.model.specs.Instructions.{holds, guarded};
ghost use Rattle.machine.specs.Core.{AssignPost, LoadPost, StorePost};
ghost use Rattle.reader.specs.Readings.{program};

use crate::registers::put;
use crate::{access, places};
use model::{Ending, LoadWidth, Test, Width};
use reader::module::Module;

// Goes on with a new value in register a.
pub(crate) fn assign(
    m: &Module,
    pc: usize,
    registers: &mut [u32; 8],
    a: u8,
    value: u32,
) -> Result<usize, Ending>
    ensures { AssignPost (program m.now) (record { registers = registers.entry.now; pc = pc }) a value result registers.exit.now }
{
    let next = places::onward(m, pc)?;
    put(registers, a, value);
    Ok(next)
}

// guard: "a := base + (a mod size)"
pub(crate) fn guard(m: &Module, x: u32) -> u32
    ensures { result ≡ guarded m.now.layout x }
{
    m.layout.base + (x & (m.layout.size - 1))
}

#[tactic(auto, unfolding(model::specs::Instructions::holds))]
pub(crate) fn is_met(test: Test, x: u32, y: u32) -> bool
    ensures { result ≡ holds test x y }
{
    match test {
        Test::Equal => x == y,
        Test::Below => x < y,
        Test::SignedBelow => words::arithmetic::signed_below(x, y),
    }
}

// A load: its reach is judged first, then the next place; then it is done.
pub(crate) fn load(
    m: &Module,
    pc: usize,
    registers: &mut [u32; 8],
    region: &[u8],
    a: u8,
    width: LoadWidth,
    address: u32,
) -> Result<usize, Ending>
    ensures { LoadPost (program m.now) (record { registers = registers.entry.now; pc = pc }) region.now a width address result registers.exit.now }
{
    let offset = access::reach_of(m, address, model::width_read(width))? as usize;
    assign(m, pc, registers, a, access::carried(region, offset, width))
}

// A store: its reach is judged first, then the next place; only then are the bytes written.
pub(crate) fn store(
    m: &Module,
    pc: usize,
    region: &mut [u8],
    value: u32,
    width: Width,
    address: u32,
) -> Result<usize, Ending>
    requires { length region.old ≡ m.now.layout.size }
    ensures { StorePost (program m.now) pc region.old value width address result region.new }
{
    let offset = access::reach_of(m, address, width)? as usize;
    let next = places::onward(m, pc)?;
    access::write(region, offset, width, value);
    Ok(next)
}
