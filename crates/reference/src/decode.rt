// Instructions by a table: what each opcode is, and the largest value of each of its operands.
ghost use Rattle.std.specs.Prelude.{◌≡◌, ◌%◌};

#[derive(Clone, Copy, PartialEq, Eq)]
pub(crate) enum Op {
    Halt,
    Set,
    Copy,
    Add,
    Addi,
    Sub,
    Andi,
    Guard,
    Shr,
    Sar,
    Load,
    Store,
    Jump,
    Branch,
    Check,
    Jumpr,
}

// A decoded instruction, its unused operands zero. What w says depends on op: an access' width, a shift's amount or a
// branch's test. It stays the row's number, as a, b and imm do: a type for it would be sixteen again. All have 32 bits,
// since a module has 4,096 of each.
#[derive(Clone, Copy)]
pub(crate) struct Ins {
    pub(crate) op: Op,
    pub(crate) a: u32,
    pub(crate) b: u32,
    pub(crate) w: u32,
    pub(crate) imm: u32,
}

impl Ins {
    pub(crate) const HALT: Ins = Ins {
        op: Op::Halt,
        a: 0,
        b: 0,
        w: 0,
        imm: 0,
    };

    // How many bytes an access reaches for. The widths that carry the sign are 128 above their count.
    pub(crate) fn bytes(self) -> u32
        ensures { result ≡ self.w % 128 }
    {
        self.w % 128
    }

    // Whether nothing goes on to the next index.
    pub(crate) fn ends(self) -> bool {
        matches!(self.op, Op::Halt | Op::Jump | Op::Jumpr)
    }

    pub(crate) fn accesses(self) -> bool {
        matches!(self.op, Op::Load | Op::Store)
    }

    // Whether imm names an index.
    pub(crate) fn jumps(self) -> bool {
        matches!(self.op, Op::Jump | Op::Branch)
    }

    // The widths of an access; a store takes none that carries the sign.
    fn has_listed_width(self) -> bool {
        match self.op {
            Op::Load => matches!(self.w, 1 | 2 | 4 | 129 | 130),
            Op::Store => matches!(self.w, 1 | 2 | 4),
            _ => true,
        }
    }
}

const ANY: u32 = u32::MAX;

// By opcode, the largest values of a, b, w and imm: 0 where an operand is unused.
const ROWS: [(Op, [u32; 4]); 16] = [
    (Op::Halt, [0, 0, 0, 0]),
    (Op::Set, [7, 0, 0, ANY]),
    (Op::Copy, [7, 7, 0, 0]),
    (Op::Add, [7, 7, 0, 0]),
    (Op::Addi, [7, 0, 0, ANY]),
    (Op::Sub, [7, 7, 0, 0]),
    (Op::Andi, [7, 0, 0, ANY]),
    (Op::Guard, [7, 0, 0, 0]),
    (Op::Shr, [7, 0, 31, 0]),
    (Op::Sar, [7, 0, 31, 0]),
    (Op::Load, [7, 7, 130, ANY]),
    (Op::Store, [7, 7, 4, ANY]),
    (Op::Jump, [0, 0, 0, ANY]),
    (Op::Branch, [7, 7, 2, ANY]),
    (Op::Check, [7, 0, 0, 0]),
    (Op::Jumpr, [7, 0, 0, 0]),
];

// The instruction of a row of opcode, a, b, w and imm; none where the row is none.
pub(crate) fn decode(row: [u32; 5]) -> Option<Ins> {
    let [number, a, b, w, imm] = row;
    let (op, [most_a, most_b, most_w, most_imm]) = *ROWS.get(number as usize)?;
    if most_a < a || most_b < b || most_w < w || most_imm < imm {
        return None;
    }
    let decoded = Ins { op, a, b, w, imm };
    decoded.has_listed_width().then_some(decoded)
}
