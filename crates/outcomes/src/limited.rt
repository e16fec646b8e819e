// Generated modules on devices with limits around their own counts: each limit is what the module has, one less or one more.
use super::answer::{OVER_PLATE, Verdict};
use super::build::File;
use super::case::{Made, make, some_memory};
use super::device::Device;
use super::plan::Maker;
use super::score::Each;
use super::side::Side;
use super::tally::Agreement;
use std::fmt::Display;
use std::{fmt, io};

impl Maker {
    // One of three around this number.
    fn around(&mut self, count: u32) -> u32 {
        count.wrapping_sub(1).wrapping_add(self.random.below(3))
    }

    fn some_device(&mut self) -> Device {
        let instructions = self.around(self.plan.n);
        let doors = self.around(self.plan.k);
        Device::Other(instructions, doors)
    }
}

// How many answers are alike, how many of each implementation are 17 at 0, and how many are ours on the box, which are
// compared elsewhere.
#[derive(Clone, Copy, Default)]
struct Answers {
    agreement: Agreement,
    over: Each,
    same: Each,
}

impl Answers {
    fn count<T: PartialEq>(&mut self, ours: &T, theirs: &T, over: &T, on_box: &T) {
        self.agreement.count(*ours == *theirs);
        self.over.note(*ours == *over, *theirs == *over);
        self.same.note(*ours == *on_box, *theirs == *on_box);
    }
}

impl Display for Answers {
    fn fmt<W: fmt::Write>(&self, f: &mut fmt::Formatter<W>) -> fmt::Result {
        write!(
            f,
            "{}: 17 by {}, as on the box {}",
            self.agreement, self.over, self.same
        )
    }
}

// What a side answers that works out claims, and the file after it.
#[derive(Clone, Copy, PartialEq, Eq)]
struct Claimed {
    answer: Verdict,
    file: File,
}

fn claim(device: Device, side: Side, given: &File) -> Claimed {
    let mut file = *given;
    let answer = side.work_out(device, file.as_mut_slice());
    Claimed { answer, file }
}

#[derive(Clone, Copy, Default)]
pub struct Limited {
    verdicts: Answers,
    runs: Answers,
    claims: Answers,
}

impl Limited {
    fn judge(&mut self, device: Device, file: &[u8]) {
        self.verdicts.count(
            &Side::Ours.verify(device, file),
            &Side::Theirs.verify(device, file),
            &Err(OVER_PLATE),
            &Side::Ours.verify(Device::Box, file),
        );
    }

    fn run(&mut self, device: Device, maker: &mut Maker, file: &[u8]) {
        let start = maker.start();
        let memory = some_memory(&mut maker.random);
        let over = Made {
            ran: start.refused(OVER_PLATE),
            memory,
        };
        self.runs.count(
            &make(device, Side::Ours, file, &start, &memory),
            &make(device, Side::Theirs, file, &start, &memory),
            &over,
            &make(Device::Box, Side::Ours, file, &start, &memory),
        );
    }

    fn work_out(&mut self, device: Device, given: &File) {
        let over = Claimed {
            answer: Err(OVER_PLATE),
            file: *given,
        };
        self.claims.count(
            &claim(device, Side::Ours, given),
            &claim(device, Side::Theirs, given),
            &over,
            &claim(Device::Box, Side::Ours, given),
        );
    }

    // A file, and one with claims that are of no account. With numbers of its own, so that those of later modules are what
    // they were.
    pub(crate) fn case(&mut self, mut maker: Maker, file: &File, garbled: &File) {
        let device = maker.some_device();
        self.judge(device, file.as_slice());
        self.run(device, &mut maker, file.as_slice());
        self.work_out(device, garbled);
    }

    pub(crate) fn report(&self, rt: &impl Print) -> io::Result<()> {
        println!(rt;
            "verdicts with limits around the counts agree {}",
            self.verdicts
        )?;
        println!(rt; "runs with limits around the counts agree {}", self.runs)?;
        println!(rt;
            "claims with limits around the counts agree {}",
            self.claims
        )
    }
}
