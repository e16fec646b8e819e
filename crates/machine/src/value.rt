// Step and run with the machine by value: it goes in, and comes back in the outcome. The arguments are the device's limits and what a host
// lends.
ghost use Rattle.model.specs.Run.{RunPost};
ghost use Rattle.machine.specs.Core.{seen_of, seen_by};

use crate::stepping;
use lookup::{GROUPS, Indexed};
use model::{Answer, Limits, Machine, Outcome, Refusal, Rule, Steps};

// Refusals 1 to 7, then 17, then 14, then 15, then the steps.
fn run_if_kept(
    limits: Limits,
    file: &[u8],
    machine: Machine,
    memory: &mut [u8],
    offset: usize,
    budget: Steps,
) -> Result<Outcome, Refusal>
    ensures { RunPost limits file.now machine memory.old offset budget (seen_by machine result memory.new) }
{
    let module = reader::read::load(limits, file)?;
    if module.held.instructions <= u32::from(machine.pc) {
        return Err(Rule::BadPc.at(0));
    }
    let size = module.layout.size as usize;
    let all = memory.len();
    if all < size || all - size < offset {
        return Err(Rule::NoRoom.at(0));
    }
    let end = offset + size;
    let mut bits = [0; GROUPS];
    let mut counts = [0; GROUPS];
    let indexed = Indexed::of(module, &mut bits, &mut counts);
    Ok(stepping::run_in(&indexed, machine, &mut memory[offset..end], budget))
}

// A run of the module in `file`, on the region that begins at `offset` of the memory, with a budget of steps.
pub fn run(
    limits: Limits,
    file: &[u8],
    machine: Machine,
    memory: &mut [u8],
    offset: usize,
    budget: Steps,
) -> Outcome
    ensures { RunPost limits file.now machine memory.old offset budget (seen_of result.answer result.machine memory.new) }
{
    match run_if_kept(limits, file, machine, memory, offset, budget) {
        Ok(outcome) => outcome,
        Err(refusal) => Outcome {
            machine,
            answer: Answer {
                completion: Err(refusal),
                steps: 0,
            },
        },
    }
}

// "A single step is a run with budget 1."
pub fn step(
    limits: Limits,
    file: &[u8],
    machine: Machine,
    memory: &mut [u8],
    offset: usize,
) -> Outcome
    ensures { RunPost limits file.now machine memory.old offset 1 (seen_of result.answer result.machine memory.new) }
{
    run(limits, file, machine, memory, offset, 1)
}
