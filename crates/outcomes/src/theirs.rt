// The reference, which was written by itself.
use super::answer::{Counts, Ending, Fault, Ran, Start, Verdict};
use super::device::Device;
use reference::Limits;

impl From<reference::Refusal> for Fault {
    fn from(refusal: reference::Refusal) -> Fault {
        Fault {
            number: u32::from(refusal.rule),
            place: refusal.place,
        }
    }
}

impl From<reference::Counts> for Counts {
    fn from(counts: reference::Counts) -> Counts {
        Counts {
            instructions: counts.instructions,
            doors: counts.doors,
        }
    }
}

impl From<reference::Ending> for Ending {
    fn from(ending: reference::Ending) -> Ending {
        match ending {
            reference::Ending::Halted => Ending::Halted,
            reference::Ending::Trapped => Ending::Trapped,
            reference::Ending::TurnedAway => Ending::TurnedAway,
            reference::Ending::Strayed => Ending::Strayed,
            reference::Ending::Spent => Ending::Spent,
        }
    }
}

impl From<Device> for Limits {
    fn from(device: Device) -> Limits {
        match device {
            Device::Box => Limits::BOX,
            Device::Plate => Limits::PLATE,
            Device::Other(instructions, doors) => Limits {
                instructions,
                doors,
            },
        }
    }
}

pub(crate) fn verify(device: Device, file: &[u8]) -> Verdict {
    Ok(Counts::from(reference::verify(Limits::from(device), file)?))
}

pub(crate) fn work_out(device: Device, file: &mut [u8]) -> Verdict {
    Ok(Counts::from(reference::work_out(Limits::from(device), file)?))
}

pub(crate) fn run(device: Device, file: &[u8], start: &Start, memory: &mut [u8]) -> Ran {
    let ran = reference::run(
        Limits::from(device),
        file,
        start.registers,
        start.place,
        memory,
        start.offset,
        start.budget,
    );
    let registers = ran.registers;
    Ran {
        registers,
        place: ran.place,
        steps: ran.steps,
        outcome: ran.outcome.map(Ending::from).map_err(Fault::from),
    }
}
