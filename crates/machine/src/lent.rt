// Step and run over a machine that the host lends: it is taken out, run by value, and stored back.
ghost use Rattle.model.specs.Run.{RunPost};
ghost use Rattle.machine.specs.Core.{seen_of};

use crate::value;
use model::{Answer, Limits, Machine, Steps};

// A run of the module in `file`, on the region that begins at `offset` of the memory, with a budget of steps.
pub fn run(
    limits: Limits,
    file: &[u8],
    machine: &mut Machine,
    memory: &mut [u8],
    offset: usize,
    budget: Steps,
) -> Answer
    ensures { RunPost limits file.now machine.old memory.old offset budget (seen_of result machine.new memory.new) }
{
    let was = *machine;
    let out = value::run(limits, file, was, memory, offset, budget);
    *machine = out.machine;
    out.answer
}

// "A single step is a run with budget 1."
pub fn step(
    limits: Limits,
    file: &[u8],
    machine: &mut Machine,
    memory: &mut [u8],
    offset: usize,
) -> Answer
    ensures { RunPost limits file.now machine.old memory.old offset 1 (seen_of result machine.new memory.new) }
{
    run(limits, file, machine, memory, offset, 1)
}
