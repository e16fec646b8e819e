// The stepping machine over the flat tables. A step goes on to an index, or ends the run where it stands.
ghost use Rattle.std.specs.Prelude.{◌≡◌, IfErr, IsOkAnd};
ghost use Rattle.reference.specs.Parts.{Unspent};
ghost use Rattle.reference.specs.Runs.{Ended};

use super::answer::{Ending, Ran};
use super::decode::{Ins, Op};
use super::know::sar;
use super::layout::Layout;
use super::load::{Module, next};
use super::read::{byte, half, put, word};

// What a load of width w reads; widths 129 and 130 carry the sign up through 32 bits.
fn fetched(region: &[u8], at: usize, w: u32) -> u32 {
    match w {
        1 => u32::from(byte(region, at)),
        2 => u32::from(half(region, at)),
        129 => i32::from(byte(region, at).cast_signed()).cast_unsigned(),
        130 => i32::from(half(region, at).cast_signed()).cast_unsigned(),
        _ => word(region, at),
    }
}

fn holds(w: u32, x: u32, y: u32) -> bool {
    match w {
        0 => x == y,
        1 => x < y,
        _ => x.cast_signed() < y.cast_signed(),
    }
}

// Whether an access to so many bytes lies in the region and so much around it.
fn lies(address: u32, count: u32, l: Layout, around: u32) -> bool {
    let from = address as usize;
    let to = from + count as usize;
    let base = l.base as usize;
    let end = base + l.size as usize;
    base <= from + around as usize && to <= end + around as usize
}

impl Module {
    fn onward(&self, place: usize) -> Option<usize> {
        (next(place) < self.shape.n).then_some(next(place))
    }

    // To an index where a door must stand.
    fn to_door(&self, to: u32) -> Option<usize> {
        self.is_door(to as usize).then_some(to as usize)
    }

    fn to_open(&self, to: u32) -> Option<usize> {
        self.is_open(to as usize).then_some(to as usize)
    }
}

#[derive(Clone, Copy)]
pub(crate) struct Machine {
    registers: [u32; 8],
    place: usize,
}

impl Machine {
    pub(crate) fn at(registers: [u32; 8], place: u16) -> Machine {
        Machine {
            registers,
            place: usize::from(place),
        }
    }

    // Register r gets v, where a next index is there.
    fn set(&mut self, module: &Module, r: u32, v: u32) -> Option<usize> {
        let to = module.onward(self.place)?;
        self.registers[r as usize % 8] = v;
        Some(to)
    }

    fn access(&mut self, module: &Module, i: Ins, region: &mut [u8]) -> Result<usize, Ending>
        ensures { IfErr result (λ e. Unspent e) }
    {
        let l = module.shape.layout;
        let address = self.registers[i.b as usize % 8].wrapping_add(i.imm);
        if !lies(address, i.bytes(), l, 0) {
            return Err(if lies(address, i.bytes(), l, l.guard) {
                Ending::Trapped
            } else {
                Ending::Strayed
            });
        }
        let to = module.onward(self.place).ok_or(Ending::Strayed)?;
        let at = address.wrapping_sub(l.base) as usize;
        if i.op == Op::Load {
            self.registers[i.a as usize % 8] = fetched(region, at, i.w);
        } else {
            put(region, at, i.w as usize, self.registers[i.a as usize % 8]);
        }
        Ok(to)
    }

    // Where an instruction leads that neither halts nor accesses memory; none where it strays. A branch whose test does
    // not hold and a check that is passed lead on.
    fn lead(&mut self, module: &Module, i: Ins) -> Option<usize> {
        let x = self.registers[i.a as usize % 8];
        let y = self.registers[i.b as usize % 8];
        let l = module.shape.layout;
        match i.op {
            Op::Set => self.set(module, i.a, i.imm),
            Op::Copy => self.set(module, i.a, y),
            Op::Add => self.set(module, i.a, x.wrapping_add(y)),
            Op::Addi => self.set(module, i.a, x.wrapping_add(i.imm)),
            Op::Sub => self.set(module, i.a, x.wrapping_sub(y)),
            Op::Andi => self.set(module, i.a, x & i.imm),
            Op::Guard => {
                let within = x.checked_rem(l.size).unwrap_or(0);
                self.set(module, i.a, l.base.wrapping_add(within))
            }
            Op::Shr => self.set(module, i.a, x >> (i.w % 32)),
            Op::Sar => self.set(module, i.a, sar(x, i.w)),
            Op::Jump => module.to_door(i.imm),
            Op::Branch if holds(i.w, x, y) => module.to_door(i.imm),
            Op::Jumpr => module.to_open(x),
            _ => module.onward(self.place),
        }
    }

    fn step(&mut self, module: &Module, region: &mut [u8]) -> Result<(), Ending>
        ensures { IfErr result (λ e. Unspent e) }
    {
        let i = module.at(self.place);
        let to = match i.op {
            Op::Halt => return Err(Ending::Halted),
            Op::Load | Op::Store => self.access(module, i, region)?,
            Op::Check if !module.is_open(self.registers[i.a as usize % 8] as usize) => {
                return Err(Ending::TurnedAway);
            }
            _ => self.lead(module, i).ok_or(Ending::Strayed)?,
        };
        self.place = to;
        Ok(())
    }

    fn ended(self, steps: u64, ending: Ending) -> Ran
        ensures steps { result.steps ≡ steps }
        ensures ended { result.outcome ≡ Ok ending }
    {
        let Machine { registers, place } = self;
        Ran {
            registers,
            place: (place % 65536) as u16,
            steps,
            outcome: Ok(ending),
        }
    }

    pub(crate) fn run(mut self, module: &Module, region: &mut [u8], budget: u64) -> Ran
        ensures { IsOkAnd result.outcome (λ ending. Ended budget result ending) }
    {
        for made in 0..budget {
            if let Err(ending) = self.step(module, region) {
                return self.ended(made + 1, ending);
            }
        }
        self.ended(budget, Ending::Spent)
    }
}
