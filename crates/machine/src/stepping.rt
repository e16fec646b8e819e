// The core: one step with the registers and the region lent, and the loop of a run over it.
// The module with its tables, pc, registers and region stay apart: a record passed by value from helper to helper costs several copies a
// step, a struct of the module and the pc would be no plainer, since jumps go by the module alone, and document 01 has the part of the
// memory itself lent to the step, so that its length stands in what is required (a struct that lends it can have no ghost field).
ghost use Rattle.std.specs.Prelude.{◌≡◌, ◌<◌, length};
ghost use Rattle.model.specs.Step.{step_of, step};
ghost use Rattle.model.specs.Run.{run};
ghost use Rattle.machine.specs.Core.{StepPost, LoopPost};
ghost use Rattle.reader.specs.Readings.{program};

use crate::operations::assign;
use crate::registers::get;
use crate::{operations, places};
use lookup::Indexed;
use model::{Answer, Ending, Instruction, Machine, Outcome, Steps};

// One instruction.
fn execute(
    indexed: &Indexed,
    instruction: Instruction,
    pc: usize,
    registers: &mut [u32; 8],
    region: &mut [u8],
) -> Result<usize, Ending>
    requires { length region.old ≡ indexed.now.«module».layout.size }
    ensures { StepPost (step_of (program indexed.now.«module») instruction (record { registers = registers.entry.now; pc = pc }) region.old) result registers.exit.now region.new }
{
    let m = &indexed.module;
    match instruction {
        Instruction::Halt => Err(Ending::Halted),
        Instruction::Set { a, imm } => assign(m, pc, registers, a, imm),
        Instruction::Copy { a, b } => {
            let y = get(registers, b);
            assign(m, pc, registers, a, y)
        }
        Instruction::Add { a, b } => {
            let x = get(registers, a);
            let y = get(registers, b);
            assign(m, pc, registers, a, words::arithmetic::sum(x, y))
        }
        Instruction::Addi { a, imm } => {
            let x = get(registers, a);
            assign(m, pc, registers, a, words::arithmetic::displaced(x, imm))
        }
        Instruction::Sub { a, b } => {
            let x = get(registers, a);
            let y = get(registers, b);
            assign(m, pc, registers, a, words::arithmetic::difference(x, y))
        }
        Instruction::Andi { a, imm } => {
            let x = get(registers, a);
            assign(m, pc, registers, a, words::arithmetic::bitwise_and(x, imm))
        }
        Instruction::Guard { a } => {
            let x = get(registers, a);
            assign(m, pc, registers, a, operations::guard(m, x))
        }
        Instruction::Shr { a, amount } => {
            let x = get(registers, a);
            assign(
                m,
                pc,
                registers,
                a,
                words::arithmetic::logical_shift(x, amount),
            )
        }
        Instruction::Sar { a, amount } => {
            let x = get(registers, a);
            assign(
                m,
                pc,
                registers,
                a,
                words::arithmetic::arithmetic_shift(x, amount),
            )
        }
        Instruction::Load { a, b, width, imm } => {
            let y = get(registers, b);
            let address = words::arithmetic::displaced(y, imm);
            operations::load(m, pc, registers, &region[..], a, width, address)
        }
        Instruction::Store { a, b, width, imm } => {
            let x = get(registers, a);
            let y = get(registers, b);
            let address = words::arithmetic::displaced(y, imm);
            operations::store(m, pc, region, x, width, address)
        }
        Instruction::Jump { to } => places::jump(indexed, to),
        Instruction::Branch { a, b, test, to } => {
            let x = get(registers, a);
            let y = get(registers, b);
            if operations::is_met(test, x, y) {
                places::jump(indexed, to)
            } else {
                places::onward(m, pc)
            }
        }
        Instruction::Check { a } => {
            let x = get(registers, a);
            if places::is_indirect(indexed, x as usize) {
                places::onward(m, pc)
            } else {
                Err(Ending::Denied)
            }
        }
        Instruction::Jumpr { a } => {
            let x = get(registers, a);
            places::jump_via(indexed, x as usize)
        }
    }
}

// One step.
fn step(
    indexed: &Indexed,
    pc: usize,
    registers: &mut [u32; 8],
    region: &mut [u8],
) -> Result<usize, Ending>
    requires inside { pc < indexed.now.«module».held.instructions }
    requires room { length region.old ≡ indexed.now.«module».layout.size }
    ensures { StepPost (step (program indexed.now.«module») (record { registers = registers.entry.now; pc = pc }) region.old) result registers.exit.now region.new }
{
    let instruction = reader::decode::fetch(indexed.module.code, pc as u32);
    execute(indexed, instruction, pc, registers, region)
}

// A run that ended.
fn ended(registers: [u32; 8], pc: usize, ending: Ending, steps: Steps) -> Outcome
    requires { pc < 65536 }
    ensures { result ≡ record { machine = record { registers = registers; pc = pc }; answer = record { completion = Ok ending; steps = steps } } }
{
    Outcome {
        machine: Machine {
            registers,
            pc: pc as u16,
        },
        answer: Answer {
            completion: Ok(ending),
            steps,
        },
    }
}

// Steps until one ends the run or the budget is used.
pub(crate) fn run_in(
    indexed: &Indexed,
    machine: Machine,
    region: &mut [u8],
    budget: Steps,
) -> Outcome
    requires inside { machine.pc < indexed.now.«module».held.instructions }
    requires room { length region.old ≡ indexed.now.«module».layout.size }
    ensures { LoopPost (run (program indexed.now.«module») budget machine region.old) result region.new }
{
    let mut registers = machine.registers;
    let mut pc = usize::from(machine.pc);
    for made in 0..budget {
        match step(indexed, pc, &mut registers, region) {
            Ok(to) => pc = to,
            Err(ending) => return ended(registers, pc, ending, made + 1),
        }
    }
    ended(registers, pc, Ending::OutOfBudget, budget)
}
