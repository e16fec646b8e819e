// The ranges along an instruction's edges: document 01's table, right column. The region is DB to DL.
ghost use Rattle.std.specs.Prelude.{◌≡◌};
ghost use Rattle.model.specs.declared.LoadWidth.TheVariants.{Unsigned};
ghost use Rattle.model.specs.Instructions.{load_range, shape, rule_n, after_next, after_taken};

use crate::knowledge::{ANYTHING, put, range_of, up_to};
use crate::{bounds, cuts, sums};
use model::{Instruction, LoadWidth, Range, Ranges, Width};

// "0 to 2^(8w) − 1", zero-extended
fn unsigned_range(width: Width) -> Range
    ensures { result ≡ load_range (Unsigned width) }
{
    match width {
        Width::One => up_to(0xFF),
        Width::Two => up_to(0xFFFF),
        Width::Four => ANYTHING,
    }
}

// With the sign carried up, "Their range afterwards is anything."
fn load_range(width: LoadWidth) -> Range
    ensures { result ≡ load_range width }
{
    match width {
        LoadWidth::Unsigned { width } => unsigned_range(width),
        LoadWidth::SignedOne | LoadWidth::SignedTwo => ANYTHING,
    }
}

// "Rule N shall cut b for every imm and width: exact b + imm lies from DB to DL − w + 1."
#[tactic(auto, unfolding(model::specs::Instructions::rule_n))]
fn rule_n(region: Range, b: u8, width: Width, imm: i32, known: Ranges) -> Ranges
    ensures { result ≡ rule_n region (record { pointer = b; width = width; displacement = imm }) known }
{
    let from = sums::end_less(region.low, 0, imm);
    let to = sums::end_less(region.high, sums::last_byte(width), imm);
    put(known, b, cuts::cut_between(range_of(known, b), from, to))
}

// Along the edge to the next index.
#[tactic(auto, unfolding(model::specs::Instructions::shape, model::specs::Instructions::after_next))]
pub fn after_next(region: Range, instruction: Instruction, known: Ranges) -> Ranges
    ensures { result ≡ after_next region (shape instruction) known }
{
    match instruction {
        Instruction::Set { a, imm } => put(
            known,
            a,
            Range {
                low: imm,
                high: imm,
            },
        ),
        Instruction::Copy { a, b } => put(known, a, range_of(known, b)),
        Instruction::Add { a, b } => put(
            known,
            a,
            sums::add(range_of(known, a), range_of(known, b)),
        ),
        Instruction::Addi { a, imm } => put(known, a, sums::addi(range_of(known, a), imm)),
        Instruction::Sub { a, b } => put(
            known,
            a,
            sums::sub(range_of(known, a), range_of(known, b)),
        ),
        Instruction::Andi { a, imm } => put(known, a, bounds::andi(range_of(known, a), imm)),
        Instruction::Guard { a } => put(known, a, bounds::guard(region, range_of(known, a))),
        Instruction::Shr { a, amount } => put(known, a, bounds::shr(range_of(known, a), amount)),
        Instruction::Sar { a, amount } => put(known, a, bounds::sar(range_of(known, a), amount)),
        // "A load with a = b keeps the loaded range instead."
        Instruction::Load { a, b, width, imm } => put(
            rule_n(region, b, model::width_read(width), imm, known),
            a,
            load_range(width),
        ),
        Instruction::Store { b, width, imm, .. } => rule_n(region, b, width, imm, known),
        Instruction::Branch { a, b, test, .. } => cuts::rule_b(test, false, a, b, known),
        Instruction::Halt
        | Instruction::Jump { .. }
        | Instruction::Check { .. }
        | Instruction::Jumpr { .. } => known,
    }
}

// Along the edge that a jump or a taken branch takes.
#[tactic(auto, unfolding(model::specs::Instructions::shape, model::specs::Instructions::after_taken))]
pub fn after_taken(instruction: Instruction, known: Ranges) -> Ranges
    ensures { result ≡ after_taken (shape instruction) known }
{
    match instruction {
        Instruction::Branch { a, b, test, .. } => cuts::rule_b(test, true, a, b, known),
        _ => known,
    }
}
