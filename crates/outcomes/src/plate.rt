// Box and plate, as ticket 8 of document 02 has it: as much as a device holds, one more of either, what comes before 17, and
// what comes after it.
use super::answer::{Fault, OVER_PLATE, Ran, Start};
use super::build::{Kind, LongFile, MOST};
use super::device::Device;
use super::device::Device::{Box, Other, Plate};
use super::doors::{changed, put_door};
use super::limit::long;
use super::order::Act;
use super::order::Act::{Halt, JumpTo, Jumpr, Pass, Set, Wild};
use super::score::Score;
use super::work::works_out;

// An open door at 0 and inner ones behind it, each with the claims that are worked out; the last instruction halts.
fn module(n: u32, k: u32) -> LongFile {
    let mut file = long(n, k, 1);
    for j in 1..k {
        put_door(&mut file, j, j, Kind::Inner);
    }
    file
}

// The module with claims of its inner doors that no file may have.
fn spoiled(n: u32, k: u32) -> LongFile {
    let mut file = module(n, k);
    for j in 1..k {
        file.put_claim(j, 1, (MOST, 0));
    }
    file
}

// By verdict, and where claims are worked out, which leaves every byte.
fn refuses(score: &mut Score, device: Device, file: &LongFile, fault: Fault) {
    score.judge(device, file.as_slice(), Err(fault));
    score.ask(|side| works_out(device, side, file, Err(fault), file));
}

// The place that a module is run from, and how many bytes of memory there are.
#[derive(Clone, Copy)]
struct Setting {
    place: u16,
    length: usize,
}

// With a region's worth of memory.
const FIRST: Setting = Setting {
    place: 0,
    length: 256,
};

impl Setting {
    fn start(self, budget: u64) -> Start {
        Start {
            registers: [3; 8],
            place: self.place,
            offset: 0,
            budget,
        }
    }

    // Whether a run with this budget was made, or was refused so.
    fn answers(self, budget: u64, ran: Ran, wrong: Option<Fault>) -> bool {
        match wrong {
            Some(fault) => ran == self.start(budget).refused(fault),
            None => ran.steps == budget && ran.outcome.is_ok(),
        }
    }

    // A run of no step, and a step. No module here writes to memory, and each can make a step from where it is run.
    fn ask(self, score: &mut Score, device: Device, file: &LongFile, wrong: Option<Fault>) {
        score.ask(|side| {
            let mut memory = [9u8; 256];
            let room = &mut memory[..self.length.min(256)];
            let ran = side.run(device, file.as_slice(), &self.start(0), room);
            let stepped = side.step(device, file.as_slice(), &self.start(1), room);
            self.answers(0, ran, wrong) && self.answers(1, stepped, wrong) && memory == [9; 256]
        });
    }
}

// How many instructions and doors, the device, and whether it holds them.
pub type HoldingRow = (u32, u32, Device, bool);

pub const HOLDINGS: [HoldingRow; 33] = [
    (512, 1, Plate, true),
    (513, 1, Plate, false),
    (32, 32, Plate, true),
    (33, 33, Plate, false),
    (512, 32, Plate, true),
    (513, 32, Plate, false),
    (512, 33, Plate, false),
    (513, 33, Plate, false),
    (4096, 1, Plate, false),
    (256, 256, Plate, false),
    (512, 32, Box, true),
    (513, 1, Box, true),
    (33, 33, Box, true),
    (513, 33, Box, true),
    (4096, 256, Box, true),
    (2, 1, Other(0, 0), false),
    (2, 1, Other(0, 1), false),
    (2, 1, Other(2, 0), false),
    (2, 1, Other(1, 1), false),
    (2, 1, Other(2, 1), true),
    (2, 2, Other(2, 1), false),
    (2, 2, Other(2, 2), true),
    (32, 32, Other(32, 512), true),
    (33, 1, Other(32, 512), false),
    (512, 33, Other(512, 33), true),
    (4096, 256, Other(4096, 256), true),
    (4096, 256, Other(4095, 256), false),
    (4096, 256, Other(4096, 255), false),
    (513, 33, Other(65536, 65536), true),
    (513, 33, Other(2147483648, 2147483648), true),
    (513, 33, Other(MOST, 0), false),
    (513, 33, Other(0, MOST), false),
    (4096, 256, Other(MOST, MOST), true),
];

// Claims that no file may have are not looked at where they are worked out, and come before 17 elsewhere.
pub(crate) fn holding_row(score: &mut Score, row: &HoldingRow) {
    let &(n, k, device, held) = row;
    let file = module(n, k);
    let given = spoiled(n, k);
    let over = if held { None } else { Some(OVER_PLATE) };
    let answer = file.verdict(over);
    let after = if held { file } else { given };
    score.judge(device, file.as_slice(), answer);
    score.ask(|side| works_out(device, side, &given, answer, &after));
    FIRST.ask(score, device, &file, over);
    if 1 < k {
        let wrong = Fault::from((7, 1));
        score.judge(device, given.as_slice(), Err(wrong));
        FIRST.ask(score, device, &given, Some(wrong));
    }
}

// A byte of the file and where it is, the file's length, and the refusal's number and place.
pub type SoonerRow = (usize, u32, usize, (u32, u32));

// In a module of 600 instructions and 40 doors, whose fields begin at 0, 15 and 4818, and whose doors at 4821.
pub const SOONER: [SoonerRow; 14] = [
    (0, 1, 14, (1, 0)),
    (0, 1, 7540, (1, 4818)),
    (0, 2, 7541, (2, 0)),
    (4818, 2, 7541, (2, 4818)),
    (16, 193, 7541, (3, 15)),
    (4819, 161, 7541, (3, 4818)),
    (0, 1, 7542, (4, 7541)),
    (7, 1, 7541, (5, 0)),
    (4114, 16, 7541, (6, 512)),
    (4810, 16, 7541, (6, 599)),
    (4823, 0, 7541, (7, 0)),
    (4825, 1, 7541, (7, 0)),
    (7000, 1, 7541, (7, 32)),
    (7475, 2, 7541, (7, 39)),
];

// 1 to 7 come before 17 on each device. The last door's claim is no file's either, which comes after all of these.
pub(crate) fn sooner_row(score: &mut Score, row: &SoonerRow) {
    let &(at, byte, length, wrong) = row;
    let fault = Fault::from(wrong);
    let mut file = module(600, 40);
    file.put_claim(39, 1, (MOST, 0));
    file.put::<1>(at, byte);
    file.length = length;
    for device in [Box, Plate, Other(0, 0)] {
        refuses(score, device, &file, fault);
        FIRST.ask(score, device, &file, Some(fault));
    }
}

// How many instructions and doors, those that are changed, and the refusal's number and place on the box.
pub type LaterRow = (u32, u32, &'static [(u32, Act)], (u32, u32));

pub const LATER: [LaterRow; 12] = [
    (600, 40, &[(598, Halt)], (12, 599)),
    (513, 1, &[(0, Halt)], (12, 1)),
    (33, 33, &[(31, Wild)], (10, 31)),
    (513, 1, &[(0, Wild)], (10, 0)),
    (513, 1, &[(511, JumpTo(9))], (8, 511)),
    (33, 33, &[(32, JumpTo(33))], (8, 32)),
    (513, 1, &[(0, Jumpr(1))], (9, 0)),
    (33, 33, &[(32, Jumpr(1))], (9, 32)),
    (600, 40, &[(599, Pass)], (13, 599)),
    (33, 33, &[(32, Pass)], (13, 32)),
    (600, 40, &[(0, Set(6))], (11, 0)),
    (33, 33, &[(31, Set(31))], (11, 31)),
];

// 8 to 13 come after 17, and the plate makes no run. Claims that are worked out keep 11.
pub(crate) fn later_row(score: &mut Score, row: &LaterRow) {
    let &(n, k, acts, wrong) = row;
    let file = changed(&module(n, k), acts);
    let fault = Fault::from(wrong);
    let worked = if fault.number == 11 {
        None
    } else {
        Some(fault)
    };
    score.judge(Box, file.as_slice(), Err(fault));
    score.ask(|side| {
        let mut given = file;
        side.work_out(Box, given.as_mut_slice()) == file.verdict(worked)
    });
    FIRST.ask(score, Box, &file, None);
    refuses(score, Plate, &file, OVER_PLATE);
    FIRST.ask(score, Plate, &file, Some(OVER_PLATE));
}

// How many instructions and doors, the device, the place, how long the memory is, and the number of the refusal.
pub type SettingRow = (u32, u32, Device, u16, usize, Option<u32>);

pub const SETTINGS: [SettingRow; 13] = [
    (600, 1, Box, 599, 256, None),
    (600, 1, Box, 600, 256, Some(14)),
    (600, 1, Box, 600, 255, Some(14)),
    (600, 1, Box, 0, 255, Some(15)),
    (600, 1, Plate, 599, 256, Some(17)),
    (600, 1, Plate, 600, 256, Some(17)),
    (600, 1, Plate, 600, 255, Some(17)),
    (600, 1, Plate, 0, 255, Some(17)),
    (33, 33, Plate, 33, 0, Some(17)),
    (512, 32, Plate, 511, 256, None),
    (512, 32, Plate, 512, 256, Some(14)),
    (512, 32, Plate, 65535, 0, Some(14)),
    (512, 32, Plate, 0, 255, Some(15)),
];

// 14 and 15 come after 17.
pub(crate) fn setting_row(score: &mut Score, row: &SettingRow) {
    let &(n, k, device, place, length, wrong) = row;
    let fault = wrong.map(|number| Fault { number, place: 0 });
    Setting { place, length }.ask(score, device, &module(n, k), fault);
}
