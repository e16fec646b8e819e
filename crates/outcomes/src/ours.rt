// The implementation that is held to the reference: the proved verifier and machine, and the part that works out
// claims. The functions and `From`s of this file and of theirs are one for each implementation: they call different crates, whose
// types have nothing in common.
use super::answer::{Counts, Ending, Fault, Ran, Start, Verdict};
use super::device::Device;
use model::{Contents, Limits, Machine, Outcome};

impl From<model::Refusal> for Fault {
    fn from(refusal: model::Refusal) -> Fault {
        Fault {
            number: u32::from(refusal.rule),
            place: refusal.place,
        }
    }
}

impl From<model::Ending> for Ending {
    fn from(ending: model::Ending) -> Ending {
        match ending {
            model::Ending::Halted => Ending::Halted,
            model::Ending::Trapped => Ending::Trapped,
            model::Ending::Denied => Ending::TurnedAway,
            model::Ending::Violated => Ending::Strayed,
            model::Ending::OutOfBudget => Ending::Spent,
        }
    }
}

impl From<Contents> for Counts {
    fn from(held: Contents) -> Counts {
        Counts {
            instructions: held.instructions,
            doors: held.targets,
        }
    }
}

impl From<Device> for Limits {
    fn from(device: Device) -> Limits {
        match device {
            Device::Box => Limits::BOX,
            Device::Plate => Limits::PLATE,
            Device::Other(instructions, targets) => Limits {
                instructions,
                targets,
            },
        }
    }
}

pub(crate) fn verify(device: Device, file: &[u8]) -> Verdict {
    let limits = Limits::from(device);
    Ok(Counts::from(verifier::verify::verify(limits, file)?))
}

pub(crate) fn work_out(device: Device, file: &mut [u8]) -> Verdict {
    let limits = Limits::from(device);
    Ok(Counts::from(claims::work_out::work_out(limits, file)?))
}

// The machine as the host leaves it.
fn machine_at(start: &Start) -> Machine {
    Machine {
        registers: start.registers,
        pc: start.place,
    }
}

impl From<Outcome> for Ran {
    fn from(outcome: Outcome) -> Ran {
        let Outcome { machine, answer } = outcome;
        Ran {
            registers: machine.registers,
            place: machine.pc,
            steps: answer.steps,
            outcome: match answer.completion {
                Ok(ending) => Ok(Ending::from(ending)),
                Err(refusal) => Err(Fault::from(refusal)),
            },
        }
    }
}

pub(crate) fn run(device: Device, file: &[u8], start: &Start, memory: &mut [u8]) -> Ran {
    let limits = Limits::from(device);
    let from = machine_at(start);
    Ran::from(machine::value::run(limits, file, from, memory, start.offset, start.budget))
}

pub(crate) fn step(device: Device, file: &[u8], start: &Start, memory: &mut [u8]) -> Ran {
    let limits = Limits::from(device);
    let from = machine_at(start);
    Ran::from(machine::value::step(limits, file, from, memory, start.offset))
}
