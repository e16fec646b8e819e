// The decoder: "The opcode decides which of the bytes a, b, w and imm are used; unused ones are zero."
ghost use Rattle.std.specs.Prelude.{◌≡◌, ℕ, ◌+◌, ◌≤◌, length, Some};
ghost use Rattle.model.specs.declared.Instruction.{Instruction};
ghost use Rattle.model.specs.File.{is_register, is_amount, has_nothing, has_a, has_a_b, has_a_amount, has_imm, has_a_imm, has_a_b_w_imm, width_of, load_width_of, test_of, decode, instruction_at, instruction_in};
ghost use Rattle.reader.specs.Decoding.{Fetches};

use model::{Instruction, LoadWidth, Test, Width};

// The bytes of an instruction.
pub const INSTRUCTION: usize = 8;

fn is_register(r: u8) -> bool
    ensures { result ≡ is_register r }
{
    matches!(r, 0..=7)
}

fn is_amount(w: u8) -> bool
    ensures { result ≡ is_amount w }
{
    matches!(w, 0..=31)
}

// "For load and store w is 1, 2 or 4." This and the two below are three tables of document 01, a function
// each; they answer an `Option`, as an error of theirs would say no more.
fn width_of(w: u8) -> Option<Width>
    ensures { result ≡ width_of w }
{
    match w {
        1 => Some(Width::One),
        2 => Some(Width::Two),
        4 => Some(Width::Four),
        _ => None,
    }
}

// "Load gets two more widths: w 129 and w 130"
fn load_width_of(w: u8) -> Option<LoadWidth>
    ensures { result ≡ load_width_of w }
{
    match w {
        129 => Some(LoadWidth::SignedOne),
        130 => Some(LoadWidth::SignedTwo),
        _ => width_of(w).map(|width| LoadWidth::Unsigned { width }),
    }
}

// "For branch w is 0 (a = b), 1 (a < b unsigned) or 2 (a < b signed)."
fn test_of(w: u8) -> Option<Test>
    ensures { result ≡ test_of w }
{
    match w {
        0 => Some(Test::Equal),
        1 => Some(Test::Below),
        2 => Some(Test::SignedBelow),
        _ => None,
    }
}

// The bytes op, a, b and w of an instruction, and its immediate as a number.
#[derive(Clone, Copy)]
pub struct Encoding {
    pub op: u8,
    pub a: u8,
    pub b: u8,
    pub w: u8,
    pub imm: u32,
}

// Which operands an opcode has: each one in its range, and the bytes of the others zero.
impl Encoding {
    fn has_imm(self) -> bool
        ensures { result ≡ has_imm self.a self.b self.w }
    {
        self.a == 0 && self.b == 0 && self.w == 0
    }

    fn has_a_imm(self) -> bool
        ensures { result ≡ has_a_imm self.a self.b self.w }
    {
        is_register(self.a) && self.b == 0 && self.w == 0
    }

    fn has_a_b_w_imm(self) -> bool
        ensures { result ≡ has_a_b_w_imm self.a self.b }
    {
        is_register(self.a) && is_register(self.b)
    }

    fn has_nothing(self) -> bool
        ensures { result ≡ has_nothing self.a self.b self.w self.imm }
    {
        self.has_imm() && self.imm == 0
    }

    fn has_a(self) -> bool
        ensures { result ≡ has_a self.a self.b self.w self.imm }
    {
        self.has_a_imm() && self.imm == 0
    }

    fn has_a_b(self) -> bool
        ensures { result ≡ has_a_b self.a self.b self.w self.imm }
    {
        self.has_a_b_w_imm() && self.w == 0 && self.imm == 0
    }

    fn has_a_amount(self) -> bool
        ensures { result ≡ has_a_amount self.a self.b self.w self.imm }
    {
        is_register(self.a) && self.b == 0 && is_amount(self.w) && self.imm == 0
    }

    // The instruction of the opcode, if its operands are as they should be. Within its callers, reader and writer, who ask whether there is
    // one: then none is made.
    #[inline(always)]
    #[tactic(auto, using(words::proofs::Signed::kept_signed, crate::proofs::Rows::no_instruction_lem, crate::proofs::Rows::provided_some, crate::proofs::Rows::provided_mapped), unfolding(model::specs::File::decode, model::specs::File::rows))]
    pub fn decode(self) -> Option<Instruction>
        ensures { result ≡ decode self.op self.a self.b self.w self.imm }
    {
        let Encoding { op, a, b, w, imm } = self;
        match op {
            0 => self.has_nothing().then_some(Instruction::Halt),
            1 => self.has_a_imm().then_some(Instruction::Set { a, imm }),
            2 => self.has_a_b().then_some(Instruction::Copy { a, b }),
            3 => self.has_a_b().then_some(Instruction::Add { a, b }),
            4 => self.has_a_imm().then_some(Instruction::Addi {
                a,
                imm: words::arithmetic::to_signed(imm),
            }),
            5 => self.has_a_b().then_some(Instruction::Sub { a, b }),
            6 => self.has_a_imm().then_some(Instruction::Andi { a, imm }),
            7 => self.has_a().then_some(Instruction::Guard { a }),
            8 => self
                .has_a_amount()
                .then_some(Instruction::Shr { a, amount: w }),
            9 => self
                .has_a_amount()
                .then_some(Instruction::Sar { a, amount: w }),
            10 => {
                let width = load_width_of(w)?;
                self.has_a_b_w_imm().then_some(Instruction::Load {
                    a,
                    b,
                    width,
                    imm: words::arithmetic::to_signed(imm),
                })
            }
            11 => {
                let width = width_of(w)?;
                self.has_a_b_w_imm().then_some(Instruction::Store {
                    a,
                    b,
                    width,
                    imm: words::arithmetic::to_signed(imm),
                })
            }
            12 => self
                .has_imm()
                .then_some(Instruction::Jump { to: imm as usize }),
            13 => {
                let test = test_of(w)?;
                self.has_a_b_w_imm().then_some(Instruction::Branch {
                    a,
                    b,
                    test,
                    to: imm as usize,
                })
            }
            14 => self.has_a().then_some(Instruction::Check { a }),
            15 => self.has_a().then_some(Instruction::Jumpr { a }),
            _ => None,
        }
    }

    // The instruction of what is known to be one: nothing is tested again, since a step that decodes anew takes more than twice as
    // long. (Of bytes that are no instruction it is whatever the operands' low bits name.)
    fn assemble(self) -> Instruction
        ensures { (i : Instruction) → decode self.op self.a self.b self.w self.imm ≡ Some i → result ≡ i }
    {
        let Encoding { op, w, imm, .. } = self;
        let a = self.a % 8;
        let b = self.b % 8;
        match op {
            0 => Instruction::Halt,
            1 => Instruction::Set { a, imm },
            2 => Instruction::Copy { a, b },
            3 => Instruction::Add { a, b },
            4 => Instruction::Addi {
                a,
                imm: words::arithmetic::to_signed(imm),
            },
            5 => Instruction::Sub { a, b },
            6 => Instruction::Andi { a, imm },
            7 => Instruction::Guard { a },
            8 => Instruction::Shr { a, amount: w % 32 },
            9 => Instruction::Sar { a, amount: w % 32 },
            10 => Instruction::Load {
                a,
                b,
                width: load_width_of(w).unwrap_or(LoadWidth::Unsigned { width: Width::Four }),
                imm: words::arithmetic::to_signed(imm),
            },
            11 => Instruction::Store {
                a,
                b,
                width: width_of(w).unwrap_or(Width::Four),
                imm: words::arithmetic::to_signed(imm),
            },
            12 => Instruction::Jump { to: imm as usize },
            13 => Instruction::Branch {
                a,
                b,
                test: test_of(w).unwrap_or(Test::SignedBelow),
                to: imm as usize,
            },
            14 => Instruction::Check { a },
            _ => Instruction::Jumpr { a },
        }
    }
}

// The eight bytes at an offset, where they are all there.
fn whole_encoding(code: &[u8], at: usize) -> Encoding
    requires { at + 8 ≤ length code.now }
    ensures { (i : ℕ) → at ≡ instruction_at i → decode result.op result.a result.b result.w result.imm ≡ instruction_in code.now i }
{
    let imm = words::bytes::little_endian(code[at + 4], code[at + 5], code[at + 6], code[at + 7]);
    Encoding {
        op: code[at],
        a: code[at + 1],
        b: code[at + 2],
        w: code[at + 3],
        imm,
    }
}

// The eight bytes of an index; those past the end are zero. Apart from the above, so that a fetch tests the length once and not at each
// byte.
fn encoding_at(code: &[u8], i: u32) -> Encoding
    ensures { decode result.op result.a result.b result.w result.imm ≡ instruction_in code.now i }
{
    let at = INSTRUCTION * (i as usize);
    if at + INSTRUCTION <= code.len() {
        return whole_encoding(code, at);
    }
    Encoding {
        op: words::bytes::byte_at(code, at),
        a: words::bytes::byte_at(code, at + 1),
        b: words::bytes::byte_at(code, at + 2),
        w: words::bytes::byte_at(code, at + 3),
        imm: words::bytes::read_u32(code, at + 4),
    }
}

// The instruction at an index of the code, from its eight bytes; bytes past the end are zero.
pub fn instruction_at(code: &[u8], i: u32) -> Option<Instruction>
    ensures { result ≡ instruction_in code.now i }
{
    encoding_at(code, i).decode()
}

// The instruction at an index of code that keeps rule 6: nothing is judged again.
pub fn fetch(code: &[u8], i: u32) -> Instruction
    ensures { Fetches code.now i result }
{
    let at = INSTRUCTION * (i as usize);
    if code.len() < at + INSTRUCTION {
        return Instruction::Halt;
    }
    whole_encoding(code, at).assemble()
}
