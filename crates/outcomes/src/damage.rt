// Damage to a module file, one part at a time: lengths and layouts at the edges, operands and doors just out of range.
use super::build::Op::{
    Add, Addi, Andi, Branch, Check, Guard, Halt, Jump, Jumpr, Load, Sar, Set, Shr, Store, Sub,
    Unknown,
};
use super::build::{Code, File, HALT, Ins, Layout, MOST, Op, instruction_at};
use super::plan::Maker;

// The layouts to try, right ones and wrong ones: the size below its least, at its most and beyond, the guard at its
// most and one more, the top at 2^32 and one more, the base below the guard, no multiple of the size, and lowest.
const LAYOUTS: [[u32; 3]; 12] = [
    [536870912, 128, 16],
    [536870912, 65536, 16],
    [536870912, 131072, 16],
    [536870912, 256, 4096],
    [536870912, 256, 4097],
    [4294966784, 256, 256],
    [4294966784, 256, 257],
    [256, 256, 256],
    [256, 256, 257],
    [536871040, 256, 16],
    [536870912, 384, 16],
    [0, 512, 0],
];

// Each opcode with the largest a, b and w that it may have, 0 where it is unused.
const LARGEST: [Code; 17] = [
    (Halt, [0, 0, 0, 0]),
    (Set, [7, 0, 0, 0]),
    (Op::Copy, [7, 7, 0, 0]),
    (Add, [7, 7, 0, 0]),
    (Addi, [7, 0, 0, 0]),
    (Sub, [7, 7, 0, 0]),
    (Andi, [7, 0, 0, 0]),
    (Guard, [7, 0, 0, 0]),
    (Shr, [7, 0, 31, 0]),
    (Sar, [7, 0, 31, 0]),
    (Load, [7, 7, 130, 0]),
    (Store, [7, 7, 4, 0]),
    (Jump, [0, 0, 0, 0]),
    (Branch, [7, 7, 2, 0]),
    (Check, [7, 0, 0, 0]),
    (Jumpr, [7, 0, 0, 0]),
    (Unknown, [0, 0, 0, 0]),
];

// Widths that carry the sign, and those beside them.
const SIGNED: [u32; 8] = [129, 130, 129, 130, 129, 130, 128, 131];

// Lengths that no field has, or none but a very long one.
const LENGTHS: [u32; 4] = [0, 17476, 32776, 65535];

impl Maker {
    // Where a field begins, and how long it is.
    fn some_field(&mut self, file: &File) -> (usize, u32) {
        self.random.pick_or_default(&file.fields())
    }

    fn bend_length(&mut self, file: &mut File) {
        let (at, right) = self.some_field(file);
        let length = match self.random.below(6) {
            0 => right.wrapping_add(1),
            1 => right.wrapping_sub(1),
            2 => right.wrapping_add(8),
            3 => right.wrapping_add(68),
            _ => self.random.pick_or_default(&LENGTHS),
        };
        file.put::<2>(at.saturating_add(1), length);
    }

    // An instruction whose operands are as large as they may be, but for one.
    fn bent_instruction(&mut self) -> Ins {
        let mut x = Ins::from(self.random.pick_or_default(&LARGEST));
        match self.random.below(7) {
            0 => x.a = x.a.wrapping_add(1),
            1 => x.b = x.b.wrapping_add(1),
            2 => x.w = x.w.wrapping_add(1),
            3 => x.w = 3,
            4 => x.w = 0,
            5 => x.imm = self.random.next(),
            _ => {}
        }
        x
    }

    fn bend_instruction(&mut self, file: &mut File) {
        let i = self.random.below(self.plan.n);
        file.put_instruction(i, self.bent_instruction());
    }

    // A width that carries the sign for whatever instruction stands there, or for a load or a store through r7 in its
    // place.
    fn bend_width(&mut self, file: &mut File) {
        let i = self.random.below(self.plan.n);
        let w = self.random.pick_or_default(&SIGNED);
        if self.random.one_in(2) {
            return file.put::<1>(instruction_at(i) + 3, w);
        }
        let op = self.random.pick_or_default(&[Load, Store]);
        file.put_instruction(
            i,
            Ins {
                op,
                b: 7,
                w,
                ..HALT
            },
        );
    }

    fn bend_claim(&mut self, file: &mut File, j: u32) {
        let r = self.random.below(8);
        let claimed = match self.random.below(4) {
            0 => (5, 4),
            1 => (5, 5),
            2 => (0, MOST - 1),
            _ => (1, MOST),
        };
        file.put_claim(j, r, claimed);
    }

    fn bend_door(&mut self, file: &mut File) {
        let j = self.random.below(self.plan.k);
        let at = file.door_at(j);
        match self.random.below(4) {
            0 => file.put::<2>(at, self.some_index()),
            1 => file.put::<1>(at + 2, self.random.below(4)),
            2 => file.put::<1>(at + 3, 1),
            _ => self.bend_claim(file, j),
        }
    }

    fn bend_byte(&mut self, file: &mut File) {
        let at = self.random.next() as usize % 1024 % file.length.saturating_add(1);
        file.put::<1>(at, self.random.next());
    }

    fn bend_tag(&mut self, file: &mut File) {
        let (at, _) = self.some_field(file);
        file.put::<1>(at, self.random.below(5));
    }

    // Damages one file in three.
    pub(crate) fn damage(&mut self, file: &mut File) {
        if !self.random.one_in(3) {
            return;
        }
        let more = file.length.saturating_add(1);
        match self.random.below(12) {
            0 => self.bend_byte(file),
            1 => file.length = self.random.next() as usize % more,
            2 => file.length = more.saturating_add(self.random.below(8) as usize),
            3 => self.bend_tag(file),
            4 => self.bend_length(file),
            5 => file.put_layout(Layout::from(self.random.pick_or_default(&LAYOUTS))),
            6 | 7 => self.bend_instruction(file),
            8 | 9 => self.bend_width(file),
            _ => self.bend_door(file),
        }
    }
}
