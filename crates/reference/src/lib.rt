// The rules of the scope document by tables: a module file is laid out in flat arrays, which are then
// gone through by index. What lies past an end reads as 0, a halt or no door, so no reader asks for a bound. It shares no
// function and no type with what it is compared with.
#![tactic(auto)]

ghost use Rattle.std.specs.Prelude.{◌≤◌, length, MatchResult};
ghost use Rattle.reference.specs.Runs.{RunRefused, RunSaid};
ghost use Rattle.reference.specs.Verdicts.{VerifySaid};
ghost use Rattle.reference.specs.Works.{WorkSaid};
ghost use Rattle.reference.specs.Writes.{WriteSaid};

mod answer;
mod decode;
mod device;
mod door;
mod field;
mod know;
mod layout;
mod load;
mod machine;
mod read;
mod rules;
mod sweep;
mod tables;
mod widen;

pub use answer::{Counts, Ending, Ran, Refusal, Rule};
pub use device::Limits;
pub use layout::Layout;
use load::Module;
use machine::Machine;
use tables::Tables;

// Accepted with instructions and doors, or refused with a number from 1 to 13, or 17, and its place. The contract does not
// settle which of the two it is, nor which number and place: that the answer is right is tested by comparison.
pub fn verify(limits: Limits, file: &[u8]) -> Result<Counts, Refusal>
    ensures { VerifySaid limits (length file.now) result }
{
    let mut module = Module::EMPTY;
    module.read(limits, file, false)?;
    module.judge()?;
    Ok(module.shape.counts())
}

// Works out the inner doors' claims and writes them over those in the file, which are not looked at: ticket 3 of
// document 02. The answer is `verify`'s of the file with these claims, and only a file that is accepted is written to.
// The contract does not settle which answer it is, nor which claims are written: that both are right is tested by
// comparison.
pub fn work_out(limits: Limits, file: &mut [u8]) -> Result<Counts, Refusal>
    ensures { WorkSaid limits file.old file.new result }
{
    let mut module = Module::EMPTY;
    module.read(limits, file, true)?;
    module.work_out();
    module.judge()?;
    module.write_claims(file);
    Ok(module.shape.counts())
}

// A run of at most budget steps: refused by a rule of 1 to 7, 14, 15 or 17, or with its ending. Budget and count are 64 bits wide by
// ticket 6 of document 02. The contract does not settle which of them it is, nor the place of a refusal by 1 to 7, nor what a run does
// to registers, place and memory: that these are right is tested by comparison.
pub fn run(
    limits: Limits,
    file: &[u8],
    registers: [u32; 8],
    place: u16,
    memory: &mut [u8],
    offset: usize,
    budget: u64,
) -> Ran
    ensures { RunSaid limits registers place budget memory.old memory.new result }
{
    let mut module = Module::EMPTY;
    match ready(&mut module, limits, file, place, memory.len(), offset) {
        Ok(end) => Machine::at(registers, place).run(&module, &mut memory[offset..end], budget),
        Err(refusal) => Ran {
            registers,
            place,
            steps: 0,
            outcome: Err(refusal),
        },
    }
}

// Reads the module, and answers where its region ends in a memory of so many bytes: of the length alone, since the bytes are lent to
// the run.
fn ready(
    module: &mut Module,
    limits: Limits,
    file: &[u8],
    place: u16,
    length: usize,
    offset: usize,
) -> Result<usize, Refusal>
    ensures { MatchResult result (λ end. (offset ≤ end) × (end ≤ length)) (λ e. RunRefused limits e) }
{
    module.read(limits, file, false)?;
    if module.shape.n <= usize::from(place) {
        return Err(Refusal::at(Rule::BadPlace, 0));
    }
    let size = module.shape.layout.size as usize;
    if length < offset || length - offset < size {
        return Err(Refusal::at(Rule::NoGround, 0));
    }
    Ok(offset + size)
}

// Writes the module file of tables: ticket 5 of document 02. A row of instructions is op, a, b, w and imm; a row of doors
// is index, kind, and lowest and highest of r0 to r7 in turn. A refusal, by 3, 5, 6, 7 or 16, leaves the buffer as it was.
// The contract does not settle which answer it is, nor which bytes are written: that both are right is tested by
// comparison.
pub fn write(
    layout: Layout,
    instructions: &[[u32; 5]],
    doors: &[[u32; 18]],
    buffer: &mut [u8],
) -> Result<u32, Refusal>
    ensures { WriteSaid (length instructions.now) (length doors.now) buffer.old buffer.new result }
{
    let tables = Tables::judged(layout, instructions, doors)?;
    let length = tables.length();
    if buffer.len() < length {
        return Err(Refusal::at(Rule::NoSpace, 0));
    }
    tables.fill(&mut buffer[..length]);
    Ok(length as u32)
}
