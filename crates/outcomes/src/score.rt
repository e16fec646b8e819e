// How many of a group's known outcomes were asked for, and how many each implementation gave.
use super::answer::Verdict;
use super::device::Device;
use super::side::Side;
use std::fmt;
use std::fmt::Display;

#[derive(Clone, Copy, Default)]
pub struct Score {
    asked: u32,
    gave: Each,
}

// How many answers of each implementation are such.
#[derive(Clone, Copy, Default)]
pub struct Each {
    ours: u32,
    theirs: u32,
}

impl Each {
    pub(crate) fn note(&mut self, ours: bool, theirs: bool) {
        self.ours = self.ours.wrapping_add(u32::from(ours));
        self.theirs = self.theirs.wrapping_add(u32::from(theirs));
    }
}

impl Score {
    // One outcome more, and whether each of them gave it.
    pub(crate) fn note(&mut self, ours: bool, theirs: bool) {
        self.asked = self.asked.wrapping_add(1);
        self.gave.note(ours, theirs);
    }

    // One outcome more, for which each of them is asked.
    pub(crate) fn ask<F: Fn(Side) -> bool>(&mut self, gives: F)
        requires { F.IsAlwaysCallable gives }
    {
        self.note(gives(Side::Ours), gives(Side::Theirs));
    }

    // The file is to be judged so.
    pub(crate) fn judge(&mut self, device: Device, file: &[u8], verdict: Verdict) {
        self.ask(|side| side.verify(device, file) == verdict);
    }
}

impl Display for Each {
    fn fmt<W: fmt::Write>(&self, f: &mut fmt::Formatter<W>) -> fmt::Result {
        write!(f, "{} and {}", self.ours, self.theirs)
    }
}

impl Display for Score {
    fn fmt<W: fmt::Write>(&self, f: &mut fmt::Formatter<W>) -> fmt::Result {
        write!(
            f,
            "as documents 01 and 02 say {} of {}",
            self.gave, self.asked
        )
    }
}
