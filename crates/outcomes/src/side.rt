// The two implementations, asked in one way. An enum and no trait: a test is a closure that asks either, and a closure is not generic.
// What a side is asked for, it has a function for; a device, a file, a start and a memory are what
// either takes.
use super::answer::{Ran, Start, Verdict};
use super::device::Device;
use super::{ours, theirs};

#[derive(Clone, Copy)]
pub enum Side {
    Ours,
    Theirs,
}

impl Side {
    // Whether it holds of both.
    pub(crate) fn both<F: Fn(Side) -> bool>(holds: F) -> bool
        requires { F.IsAlwaysCallable holds }
    {
        holds(Side::Ours) && holds(Side::Theirs)
    }

    pub(crate) fn verify(self, device: Device, file: &[u8]) -> Verdict {
        match self {
            Side::Ours => ours::verify(device, file),
            Side::Theirs => theirs::verify(device, file),
        }
    }

    pub(crate) fn work_out(self, device: Device, file: &mut [u8]) -> Verdict {
        match self {
            Side::Ours => ours::work_out(device, file),
            Side::Theirs => theirs::work_out(device, file),
        }
    }

    pub(crate) fn run(self, device: Device, file: &[u8], start: &Start, memory: &mut [u8]) -> Ran {
        match self {
            Side::Ours => ours::run(device, file, start, memory),
            Side::Theirs => theirs::run(device, file, start, memory),
        }
    }

    // A run of one step, as the budget says. The reference has no step by itself.
    pub(crate) fn step(self, device: Device, file: &[u8], start: &Start, memory: &mut [u8]) -> Ran {
        match self {
            Side::Ours => ours::step(device, file, start, memory),
            Side::Theirs => theirs::run(device, file, start, memory),
        }
    }
}
