// Doors that are looked up by index, as ticket 7 of document 02 has it: at both edges of groups of 64 indexes, behind
// groups with no door, in full ones, and past the end. What a lookup finds shows in verdicts, in single steps, and in
// claims that are worked out.
use super::answer::Ending::{Spent, Strayed, TurnedAway};
use super::answer::{Counts, Ending, Fault, Ran, Start};
use super::build::{Ins, Kind, Layout, LongFile, MOST};
use super::device::Device;
use super::edge::DB;
use super::order::Act;
use super::order::Act::{BranchTo, Check, Halt, JumpTo, Jumpr, Pass, Set};
use super::score::Score;
use super::work::works_out;
use There::{Inner, NoDoor, Open};

// What stands at an index: an inner door with its number in the list.
#[derive(Clone, Copy, PartialEq, Eq)]
pub enum There {
    NoDoor,
    Open,
    Inner(u32),
}

// Doors one after the other: the first one's index, how far it is from each to the next, how many, and their kind.
type Stretch = (u32, u32, u32, Kind);

// A module, and what stands at some indexes. Two open doors are at 0 and 2 in each.
#[derive(Clone, Copy)]
pub struct Module {
    counts: Counts,
    doors: &'static [Stretch],
    stands: &'static [(u32, There)],
}

// Doors on both sides of the edges of groups, none from 129 to 255, and the last one alone in its group.
const EDGES: Module = Module {
    counts: Counts {
        instructions: 321,
        doors: 9,
    },
    doors: &[
        (0, 2, 2, Kind::Open),
        (63, 1, 1, Kind::Inner),
        (64, 63, 2, Kind::Open),
        (128, 128, 2, Kind::Inner),
        (319, 1, 2, Kind::Inner),
    ],
    stands: &[
        (0, Open),
        (1, NoDoor),
        (2, Open),
        (62, NoDoor),
        (63, Inner(2)),
        (64, Open),
        (65, NoDoor),
        (126, NoDoor),
        (127, Open),
        (128, Inner(5)),
        (129, NoDoor),
        (192, NoDoor),
        (255, NoDoor),
        (256, Inner(6)),
        (257, NoDoor),
        (318, NoDoor),
        (319, Inner(7)),
        (320, Inner(8)),
        (321, NoDoor),
        (383, NoDoor),
        (384, NoDoor),
        (4096, NoDoor),
        (4096 + 63, NoDoor),
        (4096 + 64, NoDoor),
        (65536, NoDoor),
        (65536 + 63, NoDoor),
        (65536 + 64, NoDoor),
        (2147483648 + 64, NoDoor),
        (MOST, NoDoor),
    ],
};

// All in one group, and the first index past the end would begin the next.
const ONE_GROUP: Module = Module {
    counts: Counts {
        instructions: 64,
        doors: 3,
    },
    doors: &[(0, 2, 2, Kind::Open), (63, 1, 1, Kind::Inner)],
    stands: &[
        (62, NoDoor),
        (63, Inner(2)),
        (64, NoDoor),
        (127, NoDoor),
        (128, NoDoor),
        (4096 + 63, NoDoor),
        (65536 + 63, NoDoor),
    ],
};

// A group with no door, one with 64, and one more door behind them.
const FULL_GROUP: Module = Module {
    counts: Counts {
        instructions: 193,
        doors: 67,
    },
    doors: &[
        (0, 2, 2, Kind::Open),
        (128, 1, 1, Kind::Open),
        (129, 1, 64, Kind::Inner),
    ],
    stands: &[
        (127, NoDoor),
        (128, Open),
        (129, Inner(3)),
        (159, Inner(33)),
        (160, Inner(34)),
        (190, Inner(64)),
        (191, Inner(65)),
        (192, Inner(66)),
        (193, NoDoor),
        (256, NoDoor),
        (4096 + 128, NoDoor),
        (4096 + 191, NoDoor),
        (65536 + 128, NoDoor),
        (65536 + 191, NoDoor),
    ],
};

// As many instructions as there may be, the last one a door, and 61 groups with none.
const LONGEST: Module = Module {
    counts: Counts {
        instructions: 4096,
        doors: 5,
    },
    doors: &[
        (0, 2, 2, Kind::Open),
        (4031, 1, 1, Kind::Open),
        (4032, 63, 2, Kind::Inner),
    ],
    stands: &[
        (63, NoDoor),
        (64, NoDoor),
        (4030, NoDoor),
        (4031, Open),
        (4032, Inner(3)),
        (4033, NoDoor),
        (4094, NoDoor),
        (4095, Inner(4)),
        (4096, NoDoor),
        (4097, NoDoor),
        (4096 + 64, NoDoor),
        (4096 + 4095, NoDoor),
        (65535, NoDoor),
        (65536 + 4031, NoDoor),
        (65536 + 4095, NoDoor),
    ],
};

// As many doors as there may be: in the last four groups but for two.
const DENSE: Module = Module {
    counts: Counts {
        instructions: 4096,
        doors: 256,
    },
    doors: &[(0, 2, 2, Kind::Open), (3842, 1, 254, Kind::Inner)],
    stands: &[
        (3841, NoDoor),
        (3842, Inner(2)),
        (3903, Inner(63)),
        (3904, Inner(64)),
        (3967, Inner(127)),
        (3968, Inner(128)),
        (4031, Inner(191)),
        (4032, Inner(192)),
        (4094, Inner(254)),
        (4095, Inner(255)),
        (4096, NoDoor),
        (4096 + 4095, NoDoor),
        (65536 + 4095, NoDoor),
    ],
};

// And in all groups but the last four.
const SPREAD: Module = Module {
    counts: Counts {
        instructions: 4096,
        doors: 256,
    },
    doors: &[
        (0, 2, 2, Kind::Open),
        (30, 15, 100, Kind::Inner),
        (1530, 15, 100, Kind::Open),
        (3030, 15, 54, Kind::Inner),
    ],
    stands: &[
        (29, NoDoor),
        (30, Inner(2)),
        (255, Inner(17)),
        (256, NoDoor),
        (959, NoDoor),
        (960, Inner(64)),
        (961, NoDoor),
        (975, Inner(65)),
        (1515, Inner(101)),
        (1530, Open),
        (3015, Open),
        (3030, Inner(202)),
        (3825, Inner(255)),
        (3840, NoDoor),
        (4095, NoDoor),
    ],
};

pub const LOOKUPS: [Module; 6] = [EDGES, ONE_GROUP, FULL_GROUP, LONGEST, DENSE, SPREAD];

// Puts door j with the instruction before it: an inner one claims that r1 is its index, and finds it so.
pub(crate) fn put_door(file: &mut LongFile, j: u32, index: u32, kind: Kind) {
    if 0 < index {
        file.put_instruction(index - 1, Ins::from(Set(index)));
    }
    file.put_door(j, index, kind);
    if kind == Kind::Inner {
        file.put_claim(j, 1, (index, index));
    }
}

impl Module {
    // The last instruction halts, and those that are not before a door change nothing: each door is reached from the
    // one before it, and the claims are those that are worked out.
    fn file(&self) -> LongFile {
        let counts = self.counts;
        let layout = Layout::from([DB, 256, 256]);
        let mut file = LongFile::new(layout, counts.instructions, counts.doors);
        for i in 1..counts.instructions {
            file.put_instruction(i - 1, Ins::from(Pass));
        }
        let mut j = 0u32;
        for stretch in self.doors {
            let &(first, by, count, kind) = stretch;
            for t in 0..count {
                put_door(&mut file, j, first.wrapping_add(by.wrapping_mul(t)), kind);
                j = j.wrapping_add(1);
            }
        }
        file
    }
}

// Instructions, each with its index, that stand in place of the module's own.
pub(crate) fn changed(file: &LongFile, acts: &[(u32, Act)]) -> LongFile {
    let mut file = *file;
    for row in acts {
        let &(i, act) = row;
        file.put_instruction(i, Ins::from(act));
    }
    file
}

fn judge(score: &mut Score, file: &LongFile, wrong: Option<(u32, u32)>) {
    score.judge(
        Device::Box,
        file.as_slice(),
        file.verdict(wrong.map(Fault::from)),
    );
}

// Jumps and branches at 1 to each index, with r1 as an inner door there claims it, and one above.
pub(crate) fn judged_row(score: &mut Score, module: &Module) {
    let base = module.file();
    for row in module.stands {
        let &(index, there) = row;
        for x in [JumpTo(index), BranchTo(index)] {
            for r1 in [index, index.wrapping_add(1)] {
                let wrong = match there {
                    NoDoor => Some((8, 1)),
                    Inner(_) if r1 != index => Some((11, 1)),
                    _ => None,
                };
                judge(score, &changed(&base, &[(0, Set(r1)), (1, x)]), wrong);
            }
        }
    }
}

// A step at 1, with the index in r1: where it leads, or how it ends the run.
fn leads(score: &mut Score, base: &LongFile, x: Act, r1: u32, to: Result<u32, Ending>) {
    let file = changed(base, &[(1, x)]);
    let registers = [0, r1, 0, 0, 0, 0, 0, 0];
    let start = Start {
        registers,
        place: 1,
        offset: 0,
        budget: 1,
    };
    let (place, ending) = match to {
        Ok(index) => ((index & 0xffff) as u16, Spent),
        Err(ending) => (1, ending),
    };
    let ran = Ran {
        registers,
        place,
        steps: 1,
        outcome: Ok(ending),
    };
    score.ask(|side| {
        let mut memory = [9u8; 256];
        side.step(Device::Box, file.as_slice(), &start, &mut memory) == ran && memory == [9; 256]
    });
}

// A jump, a taken branch, a check and a jumpr with each index.
pub(crate) fn stepped_row(score: &mut Score, module: &Module) {
    let base = module.file();
    for row in module.stands {
        let &(index, there) = row;
        let jumped = if there == NoDoor {
            Err(Strayed)
        } else {
            Ok(index)
        };
        let (checked, returned) = if there == Open {
            (Ok(2), Ok(index))
        } else {
            (Err(TurnedAway), Err(Strayed))
        };
        leads(score, &base, JumpTo(index), index, jumped);
        leads(score, &base, BranchTo(index), index, jumped);
        leads(score, &base, Check(1), index, checked);
        leads(score, &base, Jumpr(1), index, returned);
    }
}

// A branch at 1 to each index with r1 one above it, which widens the claim of an inner door there and no other's.
pub(crate) fn widened_row(score: &mut Score, module: &Module) {
    let base = module.file();
    for row in module.stands {
        let &(index, there) = row;
        let above = index.wrapping_add(1);
        let mut given = changed(&base, &[(0, Set(above)), (1, BranchTo(index))]);
        let mut after = given;
        if let Inner(j) = there {
            given.put_claim(j, 1, (MOST, 0));
            after.put_claim(j, 1, (index, above));
        }
        let wrong = if there == NoDoor { Some((8, 1)) } else { None };
        let answer = given.verdict(wrong.map(Fault::from));
        score.ask(|side| works_out(Device::Box, side, &given, answer, &after));
    }
}

// A module, its changed instructions, and the refusal's number and place.
pub type ChangedRow = (Module, &'static [(u32, Act)], Option<(u32, u32)>);

// Jumps by a register at doors and beside them; the claim that is known at a door; next edges; and ways in.
pub const CHANGED: [ChangedRow; 36] = [
    (
        EDGES,
        &[(61, Set(63)), (62, Check(1)), (63, Jumpr(1))],
        Some((9, 63)),
    ),
    (EDGES, &[(63, Check(1)), (64, Jumpr(1))], Some((9, 64))),
    (EDGES, &[(126, Check(1)), (127, Jumpr(1))], Some((9, 127))),
    (
        EDGES,
        &[(254, Set(256)), (255, Check(1)), (256, Jumpr(1))],
        Some((9, 256)),
    ),
    (
        LONGEST,
        &[(4093, Set(4095)), (4094, Check(1)), (4095, Jumpr(1))],
        Some((9, 4095)),
    ),
    (EDGES, &[(61, Check(1)), (62, Jumpr(1))], None),
    (EDGES, &[(125, Check(1)), (126, Jumpr(1))], None),
    (EDGES, &[(254, Check(1)), (255, Jumpr(1))], None),
    (LONGEST, &[(4093, Check(1)), (4094, Jumpr(1))], None),
    (EDGES, &[(64, Check(1)), (65, Jumpr(1))], Some((12, 66))),
    (EDGES, &[(63, JumpTo(63))], None),
    (EDGES, &[(63, JumpTo(128))], Some((11, 63))),
    (EDGES, &[(127, JumpTo(128))], Some((11, 127))),
    (EDGES, &[(128, BranchTo(128))], None),
    (EDGES, &[(128, BranchTo(256))], Some((11, 128))),
    (EDGES, &[(256, BranchTo(256))], None),
    (EDGES, &[(256, BranchTo(128))], Some((11, 256))),
    (LONGEST, &[(4032, BranchTo(4032))], None),
    (LONGEST, &[(4032, BranchTo(4095))], Some((11, 4032))),
    (LONGEST, &[(4095, JumpTo(4095))], None),
    (LONGEST, &[(4095, JumpTo(4032))], Some((11, 4095))),
    (LONGEST, &[(4095, JumpTo(4094))], Some((8, 4095))),
    (EDGES, &[(62, Set(64))], Some((11, 62))),
    (EDGES, &[(63, Set(63))], None),
    (EDGES, &[(127, Set(127))], Some((11, 127))),
    (EDGES, &[(191, Set(256))], None),
    (EDGES, &[(255, Set(128))], Some((11, 255))),
    (LONGEST, &[(4030, Set(4032))], None),
    (LONGEST, &[(4031, Set(4031))], Some((11, 4031))),
    (LONGEST, &[(4094, Set(4032))], Some((11, 4094))),
    (EDGES, &[(62, Halt)], None),
    (EDGES, &[(63, Halt)], None),
    (EDGES, &[(64, Halt)], Some((12, 65))),
    (EDGES, &[(191, Halt)], Some((12, 192))),
    (EDGES, &[(255, Halt)], None),
    (LONGEST, &[(4094, Halt)], None),
];

pub(crate) fn changed_row(score: &mut Score, row: &ChangedRow) {
    let &(module, acts, wrong) = row;
    judge(score, &changed(&module.file(), acts), wrong);
}

// A module, one of its doors and the index that it is to have, and the door that is refused.
pub type MisplacedRow = (Module, u32, u32, u32);

// No list of doors: the index is that of the door before or after, below the former, or not below n.
pub const MISPLACED: [MisplacedRow; 11] = [
    (EDGES, 2, 64, 3),
    (EDGES, 3, 63, 3),
    (EDGES, 5, 127, 5),
    (EDGES, 6, 127, 6),
    (EDGES, 8, 321, 8),
    (ONE_GROUP, 2, 64, 2),
    (FULL_GROUP, 65, 190, 65),
    (LONGEST, 4, 4032, 4),
    (LONGEST, 4, 4096, 4),
    (LONGEST, 4, 65535, 4),
    (DENSE, 255, 4096, 255),
];

pub(crate) fn misplaced_row(score: &mut Score, row: &MisplacedRow) {
    let &(module, j, index, wrong) = row;
    let mut file = module.file();
    file.put::<2>(file.door_at(j), index);
    judge(score, &file, Some((7, wrong)));
}
