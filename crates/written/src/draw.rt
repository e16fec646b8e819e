// Random tables, most of which the reader accepts.
use super::tables::{DOOR, MOST, Space};
use model::Layout;
use random::Random;
use std::array;

// The tables, in fixed memory, and how many of their rows are handed over.
#[derive(Drop)]
pub struct Drawn {
    pub space: Space<64, 8>,
    pub n: u32,
    pub k: u32,
}

// The last two are wrong: a guard above its most, and a base that is no multiple of the size.
#[rattlefmt::skip]
const LAYOUTS: [Layout; 10] = [
    Layout { base: 536870912,  size: 4096,  guard: 256 },
    Layout { base: 536870912,  size: 256,   guard: 0 },
    Layout { base: 4096,       size: 256,   guard: 4096 },
    Layout { base: 0,          size: 512,   guard: 0 },
    Layout { base: 2147483648, size: 65536, guard: 7 },
    Layout { base: 4294966784, size: 256,   guard: 256 },
    Layout { base: 4294967040, size: 256,   guard: 0 },
    Layout { base: 65536,      size: 32768, guard: 4095 },
    Layout { base: 536870912,  size: 256,   guard: 4097 },
    Layout { base: 536871040,  size: 256,   guard: 16 },
];

// The bits that a, b and imm may have, and what w may be.
#[derive(Clone, Copy)]
struct Operands {
    a: u32,
    b: u32,
    imm: u32,
    widths: [u32; 5],
}

// By opcode.
#[rattlefmt::skip]
const OPERANDS: [Operands; 16] = [
    Operands { a: 0, b: 0, imm: 0,    widths: [0; 5] },
    Operands { a: 7, b: 0, imm: MOST, widths: [0; 5] },
    Operands { a: 7, b: 7, imm: 0,    widths: [0; 5] },
    Operands { a: 7, b: 7, imm: 0,    widths: [0; 5] },
    Operands { a: 7, b: 0, imm: MOST, widths: [0; 5] },
    Operands { a: 7, b: 7, imm: 0,    widths: [0; 5] },
    Operands { a: 7, b: 0, imm: MOST, widths: [0; 5] },
    Operands { a: 7, b: 0, imm: 0,    widths: [0; 5] },
    Operands { a: 7, b: 0, imm: 0,    widths: [0, 1, 7, 16, 31] },
    Operands { a: 7, b: 0, imm: 0,    widths: [0, 2, 15, 24, 31] },
    Operands { a: 7, b: 7, imm: MOST, widths: [1, 2, 4, 129, 130] },
    Operands { a: 7, b: 7, imm: MOST, widths: [1, 2, 4, 2, 1] },
    Operands { a: 0, b: 0, imm: MOST, widths: [0; 5] },
    Operands { a: 7, b: 7, imm: MOST, widths: [0, 1, 2, 1, 0] },
    Operands { a: 7, b: 0, imm: 0,    widths: [0; 5] },
    Operands { a: 7, b: 0, imm: 0,    widths: [0; 5] },
];

const VALUES: [u32; 8] = [0, 1, 255, 256, 65535, 2147483648, 536870912, MOST];

// A number that fills few of its bytes or all of them, or any.
fn value(random: &mut Random) -> u32 {
    let any = random.next();
    if any % 2 == 0 {
        return any;
    }
    VALUES[any as usize / 2 % 8]
}

fn instruction(random: &mut Random) -> [u32; 5] {
    let op = random.below(16);
    let operands = OPERANDS[op as usize];
    let any = random.next();
    [
        op,
        operands.a & any,
        operands.b & any / 8,
        operands.widths[any as usize / 64 % 5],
        operands.imm & value(random),
    ]
}

// The door at 0 is open, and some others are; an inner door has a range for one of the registers.
fn door(random: &mut Random, index: u32) -> [u32; 18] {
    let mut row = DOOR;
    row[0] = index;
    if random.below(index) < 3 {
        row[1] = 1;
        return row;
    }
    let r = random.below(8) as usize * 2;
    let x = value(random);
    let y = value(random);
    row[2 + r] = x & y;
    row[3 + r] = x | y;
    row
}

// Doors whose indexes rise from 0.
fn doors(random: &mut Random) -> [[u32; 18]; 8] {
    let mut index = 0;
    array::from_fn(|_| {
        let row = door(random, index);
        index = index % 64 + 1 + random.below(6);
        row
    })
}

// There are as many instructions as the index of the first door that is not handed over: none where no door is.
pub(crate) fn draw(random: &mut Random) -> Drawn {
    let code = array::from_fn(|_| instruction(random));
    let doors = doors(random);
    let k = (1 + random.below(20)) / 3;
    let n = doors[k as usize][0];
    let layout = LAYOUTS[random.below(LAYOUTS.len() as u32) as usize];
    Drawn {
        space: Space {
            layout,
            code,
            doors,
        },
        n,
        k,
    }
}
