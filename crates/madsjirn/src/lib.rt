// The gatekeeper as a static library, for hosts in C and Rust: read, verify, work out claims, run and step on any bytes, and write, with
// answers of plain numbers. A slice is a pointer and a length. Nothing is asked of a host beforehand but that its references are valid.
// What judges a module for a device takes its limits first; read and write know a file's own rules alone.
#![tactic(auto)]

pub mod answers;

ghost use Rattle.std.specs.Prelude.{◌≡◌};
ghost use Rattle.model.specs.Judgement.{judgement};
ghost use Rattle.model.specs.Claims.{work_out};
ghost use Rattle.model.specs.Run.{run_on};
ghost use Rattle.model.specs.Writer.{write};
ghost use Rattle.reader.specs.Readings.{reading};
ghost use Rattle.writer.specs.Rows.{tables_of};
ghost use Rattle.madsjirn.specs.Numbers.{module_numbers, verdict_numbers, Leaves, LeavesFile, LeavesBuffer};

use crate::answers::{ModuleAnswer, RunAnswer, VerdictAnswer, WriteAnswer};
use model::{Layout, Limits, Machine, Steps};
use writer::row::InstructionRow;
use writer::target::TargetRow;

// What a module's bytes hold, or the first of refusals 1 to 7.
#[unsafe(no_mangle)]
pub extern "C" fn madsjirn_read(file: &[u8]) -> ModuleAnswer
    ensures { result ≡ module_numbers (reading file.now) }
{
    ModuleAnswer::from(reader::read::read(file))
}

// A device's verdict on a module's bytes: its counts, or the first of refusals 1 to 7, 17 and 8 to 13.
#[unsafe(no_mangle)]
pub extern "C" fn madsjirn_verify(limits: Limits, file: &[u8]) -> VerdictAnswer
    ensures { result ≡ verdict_numbers (judgement limits file.now) }
{
    VerdictAnswer::from(verifier::verify::verify(limits, file))
}

// The same on a module's bytes with the claims of its direct targets worked out: where it is accepted they hold these claims, and where
// it is refused they are as they came.
#[unsafe(no_mangle)]
pub extern "C" fn madsjirn_work_out(limits: Limits, file: &mut [u8]) -> VerdictAnswer
    ensures { LeavesFile (work_out limits file.old) result file.new }
{
    VerdictAnswer::from(claims::work_out::work_out(limits, file))
}

// The file of a layout, a table of instructions and one of targets into the first bytes of the buffer: its length, or the first of
// refusals 3, 5, 6, 7 and 16. Bytes past the file stay, and all of them where it is refused.
#[unsafe(no_mangle)]
pub extern "C" fn madsjirn_write(
    base: u32,
    size: u32,
    guard: u32,
    instructions: &[InstructionRow],
    targets: &[TargetRow],
    buffer: &mut [u8],
) -> WriteAnswer
    ensures { LeavesBuffer (write (tables_of (record { base = base; size = size; guard = guard }) instructions.now targets.now) buffer.old) result buffer.new }
{
    let layout = Layout { base, size, guard };
    WriteAnswer::from(writer::write::write(layout, instructions, targets, buffer))
}

// A run of the module in `file` from the machine that is lent, on the region that begins at `offset` of the memory, with a budget
// of steps: how it ended, or the first of refusals 1 to 7, 17, 14 and 15.
#[unsafe(no_mangle)]
pub extern "C" fn madsjirn_run(
    limits: Limits,
    file: &[u8],
    machine: &mut Machine,
    memory: &mut [u8],
    offset: usize,
    budget: Steps,
) -> RunAnswer
    ensures { Leaves (run_on limits file.now machine.old memory.old offset budget) result machine.new memory.new }
{
    let answer = machine::lent::run(limits, file, machine, memory, offset, budget);
    RunAnswer::from(answer)
}

// A single step: a run with budget 1.
#[unsafe(no_mangle)]
pub extern "C" fn madsjirn_step(
    limits: Limits,
    file: &[u8],
    machine: &mut Machine,
    memory: &mut [u8],
    offset: usize,
) -> RunAnswer
    ensures { Leaves (run_on limits file.now machine.old memory.old offset 1) result machine.new memory.new }
{
    RunAnswer::from(machine::lent::step(limits, file, machine, memory, offset))
}
