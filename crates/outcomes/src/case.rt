// One generated module, judged and run by both implementations, and then with claims that they work out; and all of it again
// with limits around the module's own counts.
use super::answer::{Ending, PAST, Ran, Start};
use super::device::Device;
use super::limited::Limited;
use super::plan::Maker;
use super::side::Side;
use super::tally::{Runs, Tally, Verdicts, Worked};
use super::work::compare;
use random::Random;
use std::array;

// The bytes of the memory that a run is made in.
pub const MEMORY: usize = 700;

// A run, and the memory after it.
#[derive(Clone, Copy, PartialEq, Eq)]
pub struct Made {
    pub ran: Ran,
    pub memory: [u8; MEMORY],
}

pub(crate) fn make(
    device: Device,
    side: Side,
    file: &[u8],
    start: &Start,
    memory: &[u8; MEMORY],
) -> Made {
    let mut memory = *memory;
    let ran = side.run(device, file, start, &mut memory);
    Made { ran, memory }
}

fn judge(file: &[u8], verdicts: &mut Verdicts) {
    let x = Side::Ours.verify(Device::Box, file);
    let y = Side::Theirs.verify(Device::Box, file);
    verdicts.count(y, x == y);
}

pub(crate) fn some_memory(random: &mut Random) -> [u8; MEMORY] {
    array::from_fn(|_| (random.next() & 0xff) as u8)
}

// A run that ends by itself is made again with a larger budget, with which it must be the same.
fn run(maker: &mut Maker, file: &[u8], runs: &mut Runs) {
    let start = maker.start();
    let memory = some_memory(&mut maker.random);
    let ours = make(Device::Box, Side::Ours, file, &start, &memory);
    let theirs = make(Device::Box, Side::Theirs, file, &start, &memory);
    runs.count(&theirs.ran, ours == theirs);
    if theirs
        .ran
        .outcome
        .is_ok_and(|ending| ending != Ending::Spent)
    {
        let longer = Start {
            budget: PAST,
            ..start
        };
        let same = Side::both(|side| make(Device::Box, side, file, &longer, &memory) == theirs);
        runs.count_longer(same);
    }
}

pub(crate) fn case(
    random: &mut Random,
    tally: &mut Tally,
    worked: &mut Worked,
    limited: &mut Limited,
) {
    let mut maker = Maker::new(*random);
    let mut file = maker.file();
    maker.damage(&mut file);
    let claiming = file;
    judge(file.as_slice(), &mut tally.verdicts);
    run(&mut maker, file.as_slice(), &mut tally.runs);
    maker.garble(&mut file);
    compare(worked, &file);
    limited.case(maker, &claiming, &file);
    *random = maker.random;
}
