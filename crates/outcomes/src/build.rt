// A module file, written part by part into bytes that are 0 at first. What would lie past its end is left out.
ghost use Rattle.std.specs.Prelude.{◌<◌, ◌≤◌};

use super::answer::{Counts, Fault, Verdict};

// The opcodes by their numbers; the last is none.
#[derive(Clone, Copy, PartialEq, Eq, Default)]
pub enum Op {
    #[default]
    Halt,
    Set,
    Copy,
    Add,
    Addi,
    Sub,
    Andi,
    Guard,
    Shr,
    Sar,
    Load,
    Store,
    Jump,
    Branch,
    Check,
    Jumpr,
    Unknown,
}

pub const MOST: u32 = u32::MAX;

// An instruction as the file has it: its operands are plain numbers, as they may be such as none may have.
#[derive(Clone, Copy)]
pub struct Ins {
    pub op: Op,
    pub a: u32,
    pub b: u32,
    pub w: u32,
    pub imm: u32,
}

// An instruction in a table: the opcode, and then a, b, w and imm. Rows of tables are tuples here and in the other
// modules: names in each row would hide its numbers, and what takes a row names them.
pub type Code = (Op, [u32; 4]);

impl From<Code> for Ins {
    fn from(code: Code) -> Ins {
        let (op, [a, b, w, imm]) = code;
        Ins { op, a, b, w, imm }
    }
}

// Halt, which leaves nothing to build on.
pub const HALT: Ins = Ins {
    op: Op::Halt,
    a: 0,
    b: 0,
    w: 0,
    imm: 0,
};

pub(crate) fn unary(op: Op, a: u32) -> Ins {
    Ins { op, a, ..HALT }
}

pub(crate) fn binary(op: Op, a: u32, b: u32) -> Ins {
    Ins { op, a, b, ..HALT }
}

pub(crate) fn immediate(op: Op, a: u32, imm: u32) -> Ins {
    Ins { op, a, imm, ..HALT }
}

pub(crate) fn shift(op: Op, a: u32, w: u32) -> Ins {
    Ins { op, a, w, ..HALT }
}

// The accesses that take the width w: a store takes none that carries the sign.
pub(crate) fn accesses(w: u32) -> &'static [Op] {
    match w {
        129 | 130 => &[Op::Load],
        _ => &[Op::Load, Op::Store],
    }
}

// How many bytes an access of width w reaches for.
pub(crate) fn bytes(w: u32) -> u32 {
    match w {
        129 => 1,
        130 => 2,
        _ => w,
    }
}

// Its own and not the model's: rows turn into it, by a `From` that the model's could not have here.
#[derive(Clone, Copy)]
pub struct Layout {
    pub base: u32,
    pub size: u32,
    pub guard: u32,
}

impl From<[u32; 3]> for Layout {
    fn from(row: [u32; 3]) -> Layout {
        let [base, size, guard] = row;
        Layout { base, size, guard }
    }
}

// The kinds of doors by their numbers.
#[derive(Clone, Copy, PartialEq, Eq)]
pub enum Kind {
    Inner,
    Open,
}

// The lowest and the highest of a range, as a table has it, or of a claim, where the lowest may be the higher one.
pub type Span = (u32, u32);

pub const ANYTHING: Span = (0, MOST);

// A file of at most N bytes, in fixed memory: how long it is stands beside its bytes, and so does what its headers say at
// first.
#[derive(Clone, Copy, PartialEq, Eq)]
pub struct FileIn<const N: usize> {
    bytes: [u8; N],
    pub counts: Counts,
    pub length: usize,
}

// Long enough for most modules here, and for every module and one door or instruction more.
pub type File = FileIn<1024>;

pub type LongFile = FileIn<50400>;

// Where instruction i begins, and the third field where the instructions are i.
pub(crate) fn instruction_at(i: u32) -> usize
    ensures least { 18 ≤ result }
    ensures most { result < 100000000000 }
{
    18 + i as usize * 8
}

impl<const N: usize> FileIn<N> {
    // The headers and the layout; instructions and doors are still to be written.
    pub(crate) fn new(layout: Layout, instructions: u32, doors: u32) -> Self {
        let mut file = FileIn {
            bytes: [0; N],
            counts: Counts {
                instructions,
                doors,
            },
            length: 0,
        };
        file.length = file.door_at(doors);
        file.put_headers();
        file.put_layout(layout);
        file
    }

    // With these instructions and an open door and inner ones, which are still to be written: no field has as many as
    // 4096 here.
    pub(crate) fn of(layout: Layout, code: &[Code], inner: usize) -> Self {
        let instructions = code.len().min(4096) as u32;
        let doors = inner.min(4096) as u32 + 1;
        let mut file = Self::new(layout, instructions, doors);
        for (i, x) in (0..).zip(code) {
            file.put_instruction(i, Ins::from(*x));
        }
        file
    }

    // The answer of a file that is to be refused so, or that is to be accepted.
    pub(crate) fn verdict(&self, wrong: Option<Fault>) -> Verdict {
        match wrong {
            Some(fault) => Err(fault),
            None => Ok(self.counts),
        }
    }

    pub(crate) fn as_slice(&self) -> &[u8] {
        &self.bytes[..self.length.min(N)]
    }

    pub(crate) fn as_mut_slice(&mut self) -> &mut [u8] {
        let length = self.length.min(N);
        &mut self.bytes[..length]
    }

    // The lowest B bytes of a number.
    pub(crate) fn put<const B: usize>(&mut self, at: usize, v: u32) {
        if let Some(rest) = self.bytes.get_mut(at..) {
            for (place, byte) in rest.iter_mut().take(B).zip(v.to_le_bytes()) {
                *place = byte;
            }
        }
    }

    // Whether this word is at that place.
    fn has(&self, at: usize, v: u32) -> bool {
        self.bytes
            .get(at..)
            .is_some_and(|rest| rest.starts_with(&v.to_le_bytes()))
    }

    // Where door j begins.
    pub(crate) fn door_at(&self, j: u32) -> usize
        ensures { result < 1000000000000 }
    {
        instruction_at(self.counts.instructions) + 3 + j as usize * 68
    }

    // Where each field begins, and how long it is.
    pub(crate) fn fields(&self) -> [(usize, u32); 3] {
        let third = instruction_at(self.counts.instructions);
        [
            (0, 12),
            (15, self.counts.instructions.wrapping_mul(8)),
            (third, self.counts.doors.wrapping_mul(68)),
        ]
    }

    fn put_headers(&mut self) {
        for (tag, (at, length)) in (1..=3).zip(self.fields()) {
            self.put::<1>(at, tag);
            self.put::<2>(at.saturating_add(1), length);
        }
    }

    pub(crate) fn put_layout(&mut self, layout: Layout) {
        self.put::<4>(3, layout.base);
        self.put::<4>(7, layout.size);
        self.put::<4>(11, layout.guard);
    }

    pub(crate) fn put_instruction(&mut self, i: u32, x: Ins) {
        let at = instruction_at(i);
        self.put::<1>(at, x.op as u32);
        self.put::<1>(at + 1, x.a);
        self.put::<1>(at + 2, x.b);
        self.put::<1>(at + 3, x.w);
        self.put::<4>(at + 4, x.imm);
    }

    // Where door j claims something of register r.
    fn claim_at(&self, j: u32, r: u32) -> usize
        ensures { result < 10000000000000 }
    {
        self.door_at(j) + 4 + r as usize * 8
    }

    pub(crate) fn put_claim(&mut self, j: u32, r: u32, claimed: Span) {
        let (lowest, highest) = claimed;
        let at = self.claim_at(j, r);
        self.put::<4>(at, lowest);
        self.put::<4>(at + 4, highest);
    }

    // Whether door j claims this of register r.
    pub(crate) fn claims(&self, j: u32, r: u32, claimed: Span) -> bool {
        let (lowest, highest) = claimed;
        let at = self.claim_at(j, r);
        self.has(at, lowest) && self.has(at + 4, highest)
    }

    // Door j, which claims anything of each register.
    pub(crate) fn put_door(&mut self, j: u32, index: u32, kind: Kind) {
        let at = self.door_at(j);
        self.put::<2>(at, index);
        self.put::<1>(at + 2, kind as u32);
        for r in 0..8 {
            self.put_claim(j, r, ANYTHING);
        }
    }
}
