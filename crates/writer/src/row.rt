// An instruction as a row of a table: op, a, b, w and imm, as numbers. A slice of enums has no layout, so tables have rows; and a row is an
// array, in which hosts in C lend it as a struct of as many words.
ghost use Rattle.std.specs.Prelude.{◌≡◌, ◌%◌};
ghost use Rattle.model.specs.Words.{modulus};
ghost use Rattle.model.specs.File.{decoded};
ghost use Rattle.model.specs.Writer.{encoded};
ghost use Rattle.writer.specs.Rows.{row_of};

use model::Instruction;
use reader::decode::Encoding;

pub type InstructionRow = [u32; 5];

// The instruction that a row decodes to. What does not fit its byte of the file is out of range.
#[tactic(auto, using(model::proofs::Writer::Rows::not_bytes))]
pub fn instruction_of(row: InstructionRow) -> Option<Instruction>
    ensures { result ≡ decoded (row_of row) }
{
    let [op, a, b, w, imm] = row;
    Encoding {
        op: u8::try_from(op).ok()?,
        a: u8::try_from(a).ok()?,
        b: u8::try_from(b).ok()?,
        w: u8::try_from(w).ok()?,
        imm,
    }
    .decode()
}

// The index that a jump or branch names, as a word; one that was decoded is one. (`u32::try_from` would have to say what row there is
// of an index that is none.)
fn low_word(to: usize) -> u32
    ensures { result ≡ to % modulus }
{
    (to % 0x1_0000_0000) as u32
}

// The row of a decoded instruction; of one that was decoded it decodes to that again.
#[tactic(auto, unfolding(model::specs::Writer::encoded))]
pub fn row_of(instruction: Instruction) -> InstructionRow
    ensures { row_of result ≡ encoded instruction }
{
    match instruction {
        Instruction::Halt => [0, 0, 0, 0, 0],
        Instruction::Set { a, imm } => [1, a as u32, 0, 0, imm],
        Instruction::Copy { a, b } => [2, a as u32, b as u32, 0, 0],
        Instruction::Add { a, b } => [3, a as u32, b as u32, 0, 0],
        Instruction::Addi { a, imm } => { [4, a as u32, 0, 0, words::arithmetic::to_unsigned(imm)] }
        Instruction::Sub { a, b } => [5, a as u32, b as u32, 0, 0],
        Instruction::Andi { a, imm } => [6, a as u32, 0, 0, imm],
        Instruction::Guard { a } => [7, a as u32, 0, 0, 0],
        Instruction::Shr { a, amount } => [8, a as u32, 0, amount as u32, 0],
        Instruction::Sar { a, amount } => [9, a as u32, 0, amount as u32, 0],
        Instruction::Load { a, b, width, imm } => [
            10,
            a as u32,
            b as u32,
            u32::from(width),
            words::arithmetic::to_unsigned(imm),
        ],
        Instruction::Store { a, b, width, imm } => [
            11,
            a as u32,
            b as u32,
            u32::from(width),
            words::arithmetic::to_unsigned(imm),
        ],
        Instruction::Jump { to } => [12, 0, 0, 0, low_word(to)],
        Instruction::Branch { a, b, test, to } => [
            13,
            a as u32,
            b as u32,
            u32::from(test),
            low_word(to),
        ],
        Instruction::Check { a } => [14, a as u32, 0, 0, 0],
        Instruction::Jumpr { a } => [15, a as u32, 0, 0, 0],
    }
}
