// Known outcomes of working out claims, as ticket 3 of document 02 has it: the answer, and every byte of the file after
// it. The modules come with claims that no file may have, from the highest number down to 0.
use super::answer::{Fault, Verdict};
use super::build::Op::{Addi, Andi, Branch, Guard, Halt, Jump, Load, Set};
use super::build::{Code, File, Kind, Layout, MOST, Span};
use super::device::Device;
use super::score::Score;
use super::work::works_out;

const BASE: u32 = 536870912;

const SIZE: u32 = 4096;

// Each of the tables below is a module's code, and no column beside another.

// Document 01's loop.
const LOOP: [Code; 4] = [
    (Guard, [1, 0, 0, 0]),
    (Load, [0, 1, 4, 0]),
    (Addi, [1, 0, 0, 4]),
    (Jump, [0, 0, 0, 1]),
];

// Loops up to 8, up to 9 and down from 8.
const UP_TO_8: [Code; 6] = [
    (Set, [0, 0, 0, 0]),
    (Set, [1, 0, 0, 8]),
    (Branch, [0, 1, 1, 4]),
    (Halt, [0, 0, 0, 0]),
    (Addi, [0, 0, 0, 1]),
    (Jump, [0, 0, 0, 2]),
];

const UP_TO_9: [Code; 6] = [
    (Set, [0, 0, 0, 0]),
    (Set, [1, 0, 0, 9]),
    (Branch, [0, 1, 1, 4]),
    (Halt, [0, 0, 0, 0]),
    (Addi, [0, 0, 0, 1]),
    (Jump, [0, 0, 0, 2]),
];

const DOWN_FROM_8: [Code; 6] = [
    (Set, [0, 0, 0, 8]),
    (Set, [1, 0, 0, 0]),
    (Branch, [1, 0, 1, 4]),
    (Halt, [0, 0, 0, 0]),
    (Addi, [0, 0, 0, MOST]),
    (Jump, [0, 0, 0, 2]),
];

// One that grows its door twice in a sweep.
const GROWS_TWICE: [Code; 8] = [
    (Set, [0, 0, 0, 0]),
    (Set, [1, 0, 0, 15]),
    (Branch, [0, 1, 1, 4]),
    (Halt, [0, 0, 0, 0]),
    (Addi, [0, 0, 0, 1]),
    (Branch, [2, 3, 0, 2]),
    (Addi, [0, 0, 0, 1]),
    (Jump, [0, 0, 0, 2]),
];

// The taken edge of the branch at 6 reaches the door at 7, and its next edge widens it.
const TAKEN_EDGE: [Code; 9] = [
    (Set, [0, 0, 0, 0]),
    (Andi, [1, 0, 0, 1]),
    (Set, [2, 0, 0, 9]),
    (Jump, [0, 0, 0, 6]),
    (Addi, [1, 0, 0, 1]),
    (Jump, [0, 0, 0, 7]),
    (Branch, [0, 1, 0, 7]),
    (Branch, [1, 2, 1, 4]),
    (Halt, [0, 0, 0, 0]),
];

// The door at 1 is unreached, and the one at 3 can be reached from there alone.
const UNREACHED: [Code; 4] = [
    (Halt, [0, 0, 0, 0]),
    (Set, [0, 0, 0, 5]),
    (Jump, [0, 0, 0, 3]),
    (Halt, [0, 0, 0, 0]),
];

// No way in at 3, whence r1 would be 0.
const NO_WAY_IN: [Code; 5] = [
    (Set, [1, 0, 0, BASE]),
    (Load, [0, 1, 4, 0]),
    (Halt, [0, 0, 0, 0]),
    (Set, [1, 0, 0, 0]),
    (Jump, [0, 0, 0, 1]),
];

// A branch to no door.
const NO_DOOR: [Code; 3] = [
    (Set, [0, 0, 0, 5]),
    (Branch, [1, 2, 1, 9]),
    (Halt, [0, 0, 0, 0]),
];

// The loop up to 8 without its last instruction.
const CUT_SHORT: [Code; 5] = [
    (Set, [0, 0, 0, 0]),
    (Set, [1, 0, 0, 8]),
    (Branch, [0, 1, 1, 4]),
    (Halt, [0, 0, 0, 0]),
    (Addi, [0, 0, 0, 1]),
];

// The door, the register, and what is claimed of it.
type Claim = (u32, u32, Span);

// A module: its instructions; the indexes of the inner doors; the guard; and door 2's byte that is to be 0. And what is to
// come of it: what is claimed, each time the door, the register and the range, or the refusal's number and place. What is
// not listed is to be anything.
pub struct Module {
    code: &'static [Code],
    doors: &'static [u32],
    guard: u32,
    spare: u32,
    outcome: Result<&'static [Claim], (u32, u32)>,
}

pub const MODULES: [Module; 12] = [
    Module {
        code: &LOOP,
        doors: &[1],
        guard: 4,
        spare: 0,
        outcome: Ok(&[(1, 1, (BASE, BASE + SIZE))]),
    },
    Module {
        code: &LOOP,
        doors: &[1],
        guard: 3,
        spare: 0,
        outcome: Err((10, 1)),
    },
    Module {
        code: &UP_TO_8,
        doors: &[2, 4],
        guard: 4,
        spare: 0,
        outcome: Ok(&[
            (1, 0, (0, 8)),
            (1, 1, (8, 8)),
            (2, 0, (0, 7)),
            (2, 1, (8, 8)),
        ]),
    },
    Module {
        code: &UP_TO_9,
        doors: &[2, 4],
        guard: 4,
        spare: 0,
        outcome: Ok(&[(1, 1, (9, 9)), (2, 0, (0, 8)), (2, 1, (9, 9))]),
    },
    Module {
        code: &DOWN_FROM_8,
        doors: &[2, 4],
        guard: 4,
        spare: 0,
        outcome: Ok(&[
            (1, 0, (0, 8)),
            (1, 1, (0, 0)),
            (2, 0, (1, 8)),
            (2, 1, (0, 0)),
        ]),
    },
    Module {
        code: &GROWS_TWICE,
        doors: &[2, 4],
        guard: 4,
        spare: 0,
        outcome: Ok(&[
            (1, 0, (0, 16)),
            (1, 1, (15, 15)),
            (2, 0, (0, 14)),
            (2, 1, (15, 15)),
        ]),
    },
    Module {
        code: &TAKEN_EDGE,
        doors: &[4, 6, 7],
        guard: 4,
        spare: 0,
        outcome: Ok(&[
            (1, 0, (0, 0)),
            (1, 1, (0, 8)),
            (1, 2, (9, 9)),
            (2, 0, (0, 0)),
            (2, 1, (0, 1)),
            (2, 2, (9, 9)),
            (3, 0, (0, 0)),
            (3, 2, (9, 9)),
        ]),
    },
    Module {
        code: &UNREACHED,
        doors: &[1, 3],
        guard: 4,
        spare: 0,
        outcome: Ok(&[(2, 0, (5, 5))]),
    },
    Module {
        code: &NO_WAY_IN,
        doors: &[1],
        guard: 4,
        spare: 0,
        outcome: Err((12, 3)),
    },
    Module {
        code: &NO_DOOR,
        doors: &[2],
        guard: 4,
        spare: 0,
        outcome: Err((8, 1)),
    },
    Module {
        code: &CUT_SHORT,
        doors: &[2, 4],
        guard: 4,
        spare: 0,
        outcome: Err((13, 4)),
    },
    Module {
        code: &UNREACHED,
        doors: &[1, 3],
        guard: 4,
        spare: 1,
        outcome: Err((7, 2)),
    },
];

impl Module {
    // Its doors claim anything.
    fn file(&self) -> File {
        let layout = Layout::from([BASE, SIZE, self.guard]);
        let mut file = File::of(layout, self.code, self.doors.len());
        file.put_door(0, 0, Kind::Open);
        for (j, index) in (1..).zip(self.doors) {
            file.put_door(j, *index, Kind::Inner);
        }
        file.put::<1>(file.door_at(2) + 3, self.spare);
        file
    }

    // What is to come of it.
    fn verdict(&self) -> Verdict {
        match self.outcome {
            Ok(_) => Ok(self.file().counts),
            Err(wrong) => Err(Fault::from(wrong)),
        }
    }

    // As it comes: every claim of the inner doors is wrong.
    fn spoiled(&self) -> File {
        let mut file = self.file();
        for j in 1..file.counts.doors {
            for r in 0..8 {
                file.put_claim(j, r, (MOST, 0));
            }
        }
        file
    }

    fn claiming(&self, claims: &[Claim]) -> File {
        let mut file = self.file();
        for claim in claims {
            let &(j, r, claimed) = claim;
            file.put_claim(j, r, claimed);
        }
        file
    }

    // The file afterwards, which is as it came where it is refused.
    fn worked_out(&self) -> File {
        match self.outcome {
            Ok(claims) => self.claiming(claims),
            Err(_) => self.spoiled(),
        }
    }
}

// No file may have the claims that it comes with.
const WRONG_CLAIM: Verdict = Err(Fault {
    number: 7,
    place: 1,
});

pub(crate) fn claims_row(score: &mut Score, module: &Module) {
    let given = module.spoiled();
    let after = module.worked_out();
    let answer = module.verdict();
    score.judge(Device::Box, given.as_slice(), WRONG_CLAIM);
    score.ask(|side| works_out(Device::Box, side, &given, answer, &after));
}
