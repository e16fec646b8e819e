// Single steps at the edges of the region, and to places far off. The region is 256 of 400 bytes, from byte 100 on.
use super::answer::Ending::{Spent, Strayed, Trapped, TurnedAway};
use super::answer::{Ending, Fault, Ran, Start};
use super::build::Op::{Branch, Check, Guard, Jump, Jumpr, Load, Sar, Shr, Store};
use super::build::{File, Ins, Kind, Layout, Op, accesses, unary};
use super::device::Device;
use super::edge::{DB, DL};
use super::score::Score;

// What r2 holds before a load, and before most stores.
pub const HELD: u32 = 2762187425;

// The region's first word in most of these steps, and its last, which holds the bytes 5, 6, 7, 8.
const ONE_TO_FOUR: u32 = 67305985;

pub const FIVE_TO_EIGHT: u32 = 134678021;

const KEPT: [u32; 2] = [ONE_TO_FOUR, FIVE_TO_EIGHT];

// r0, r1 and r2, and the first and the last word of the region.
#[derive(Clone, Copy)]
pub struct State {
    pub registers: [u32; 3],
    pub words: [u32; 2],
}

impl State {
    // With the words of most of these steps.
    pub(crate) fn of(registers: [u32; 3]) -> State {
        State {
            registers,
            words: KEPT,
        }
    }

    fn all_registers(&self) -> [u32; 8] {
        let [r0, r1, r2] = self.registers;
        [r0, r1, r2, 0, 0, 0, 0, 0]
    }

    fn memory(&self) -> [u8; 400] {
        let [first, last] = self.words;
        let mut memory = [9u8; 400];
        memory[100..104].copy_from_slice(&first.to_le_bytes());
        memory[352..356].copy_from_slice(&last.to_le_bytes());
        memory
    }
}

// The instruction, where the region begins and how wide the guard is; and what is before and after one step, where it
// leads and how a run of it ends.
#[derive(Clone, Copy)]
pub struct Step {
    pub x: Ins,
    pub base: u32,
    pub guard: u32,
    pub before: State,
    pub after: State,
    pub place: u16,
    pub ending: Ending,
}

impl Step {
    // A step in most of these modules that goes on to the next index.
    pub(crate) fn of(x: Ins, before: State, after: State) -> Step {
        Step {
            x,
            base: DB,
            guard: 256,
            before,
            after,
            place: 1,
            ending: Ending::Spent,
        }
    }

    // 3 instructions and 2 doors: 0 open, 1 inner.
    fn file(&self) -> File {
        let layout = Layout::from([self.base, 256, self.guard]);
        let mut file = File::new(layout, 3, 2);
        file.put_instruction(0, self.x);
        file.put_door(0, 0, Kind::Open);
        file.put_door(1, 1, Kind::Inner);
        file
    }

    pub(crate) fn ask(&self, score: &mut Score) {
        let file = self.file();
        let before = self.before.memory();
        let after = self.after.memory();
        let start = Start {
            registers: self.before.all_registers(),
            place: 0,
            offset: 100,
            budget: 1,
        };
        let ran = Ran {
            registers: self.after.all_registers(),
            place: self.place,
            steps: 1,
            outcome: Ok(self.ending),
        };
        score.ask(|side| {
            let mut memory = before;
            side.step(Device::Box, file.as_slice(), &start, &mut memory) == ran && memory == after
        });
    }
}

// An access through r1, of r2.
pub(crate) fn access(op: Op, w: u32) -> Ins {
    Ins {
        op,
        a: 2,
        b: 1,
        w,
        imm: 0,
    }
}

// An opcode and w, the address, and r2 and the first and the last word after the access.
pub type DoneRow = (Op, u32, u32, u32, [u32; 2]);

pub const DONE: [DoneRow; 17] = [
    (Load, 1, DL, 8, KEPT),
    (Load, 2, DL - 1, 2055, KEPT),
    (Load, 4, DL - 3, FIVE_TO_EIGHT, KEPT),
    (Load, 1, DB, 1, KEPT),
    (Load, 2, DB, 513, KEPT),
    (Load, 4, DB, ONE_TO_FOUR, KEPT),
    (Store, 1, DL, HELD, [ONE_TO_FOUR, 2701592069]),
    (Store, 2, DL - 1, HELD, [ONE_TO_FOUR, 2728461829]),
    (Store, 4, DL - 3, HELD, [ONE_TO_FOUR, HELD]),
    (Store, 1, DB, HELD, [67306145, FIVE_TO_EIGHT]),
    (Store, 2, DB, HELD, [67347105, FIVE_TO_EIGHT]),
    (Store, 4, DB, HELD, [HELD, FIVE_TO_EIGHT]),
    (Store, 4, DB, 16777216, [16777216, FIVE_TO_EIGHT]),
    (Load, 129, DL, 8, KEPT),
    (Load, 130, DL - 1, 2055, KEPT),
    (Load, 129, DB, 1, KEPT),
    (Load, 130, DB, 513, KEPT),
];

pub(crate) fn done_row(score: &mut Score, row: &DoneRow) {
    let &(op, w, address, r2, words) = row;
    let held = if op == Store { r2 } else { HELD };
    let after = State {
        registers: [0, address, r2],
        words,
    };
    Step::of(access(op, w), State::of([0, address, held]), after).ask(score);
}

// w, the address, and how the access ends the run.
pub type EndRow = (u32, u32, Ending);

// Accesses into the guard and beyond it: the first byte at the lower edges, the last at the upper ones.
pub const ENDS: [EndRow; 27] = [
    (1, DL + 1, Trapped),
    (2, DL, Trapped),
    (4, DL - 2, Trapped),
    (1, DL + 256, Trapped),
    (2, DL + 255, Trapped),
    (4, DL + 253, Trapped),
    (4, DB - 1, Trapped),
    (1, DB - 256, Trapped),
    (1, DL + 257, Strayed),
    (2, DL + 256, Strayed),
    (4, DL + 254, Strayed),
    (1, DB - 257, Strayed),
    (4, DB - 257, Strayed),
    (4, 4294967294, Strayed),
    (129, DL + 1, Trapped),
    (130, DL, Trapped),
    (129, DL + 256, Trapped),
    (130, DL + 255, Trapped),
    (129, DB - 1, Trapped),
    (130, DB - 1, Trapped),
    (129, DB - 256, Trapped),
    (130, DB - 256, Trapped),
    (129, DL + 257, Strayed),
    (130, DL + 256, Strayed),
    (129, DB - 257, Strayed),
    (130, DB - 257, Strayed),
    (130, 4294967295, Strayed),
];

// Each as a load, and as a store where it takes the width.
pub(crate) fn end_row(score: &mut Score, row: &EndRow) {
    let &(w, address, ending) = row;
    let held = State::of([0, address, HELD]);
    for op in accesses(w) {
        Step {
            place: 0,
            ending,
            ..Step::of(access(*op, w), held, held)
        }
        .ask(score);
    }
}

// The opcode; a, b, w and imm; r1 and r2 before the step; how it ends, the place, and r1 after it.
pub type OtherRow = (Op, [u32; 4], [u32; 2], Ending, u16, u32);

pub const OTHERS: [OtherRow; 26] = [
    (Jump, [0, 0, 0, 1], [0, 0], Spent, 1, 0),
    (Jump, [0, 0, 0, 2], [0, 0], Strayed, 0, 0),
    (Jump, [0, 0, 0, 65536], [0, 0], Strayed, 0, 0),
    (Jump, [0, 0, 0, 65537], [0, 0], Strayed, 0, 0),
    (Branch, [1, 2, 0, 65537], [3, 3], Strayed, 0, 3),
    (Branch, [1, 2, 0, 65537], [3, 4], Spent, 1, 3),
    (Jumpr, [1, 0, 0, 0], [0, 0], Spent, 0, 0),
    (Jumpr, [1, 0, 0, 0], [1, 0], Strayed, 0, 1),
    (Jumpr, [1, 0, 0, 0], [65536, 0], Strayed, 0, 65536),
    (Check, [1, 0, 0, 0], [0, 0], Spent, 1, 0),
    (Check, [1, 0, 0, 0], [1, 0], TurnedAway, 0, 1),
    (Check, [1, 0, 0, 0], [65536, 0], TurnedAway, 0, 65536),
    (Branch, [1, 2, 1, 0], [3, 4], Spent, 0, 3),
    (Branch, [1, 2, 1, 0], [4, 4], Spent, 1, 4),
    (
        Branch,
        [1, 2, 1, 0],
        [2147483648, 2147483647],
        Spent,
        1,
        2147483648,
    ),
    (
        Branch,
        [1, 2, 2, 0],
        [2147483648, 2147483647],
        Spent,
        0,
        2147483648,
    ),
    (
        Branch,
        [1, 2, 2, 0],
        [2147483647, 2147483648],
        Spent,
        1,
        2147483647,
    ),
    (Branch, [1, 2, 2, 0], [4294967295, 0], Spent, 0, 4294967295),
    (Branch, [1, 2, 2, 0], [4, 4], Spent, 1, 4),
    (Guard, [1, 0, 0, 0], [0, 0], Spent, 1, DB),
    (Guard, [1, 0, 0, 0], [4294967295, 0], Spent, 1, DL),
    (Guard, [1, 0, 0, 0], [DL + 1, 0], Spent, 1, DB),
    (Sar, [1, 0, 4, 0], [2147483648, 0], Spent, 1, 4160749568),
    (Sar, [1, 0, 31, 0], [4294967295, 0], Spent, 1, 4294967295),
    (Sar, [1, 0, 31, 0], [2147483647, 0], Spent, 1, 0),
    (Shr, [1, 0, 31, 0], [2147483648, 0], Spent, 1, 1),
];

pub(crate) fn other_row(score: &mut Score, row: &OtherRow) {
    let &(op, operands, [r1, r2], ending, place, left) = row;
    let x = Ins::from((op, operands));
    Step {
        place,
        ending,
        ..Step::of(x, State::of([0, r1, r2]), State::of([0, left, r2]))
    }
    .ask(score);
}

// How long the memory is, the offset of the region, and the number of the refusal.
pub type RoomRow = (usize, usize, Option<u32>);

pub const ROOMS: [RoomRow; 6] = [
    (256, 0, None),
    (255, 0, Some(15)),
    (256, 1, Some(15)),
    (400, 144, None),
    (400, 145, Some(15)),
    (0, 0, Some(15)),
];

pub(crate) fn room_row(score: &mut Score, row: &RoomRow) {
    let &(length, offset, wrong) = row;
    let state = State::of([0; 3]);
    let file = Step::of(unary(Check, 1), state, state).file();
    let start = Start {
        registers: [0; 8],
        place: 0,
        offset,
        budget: 1,
    };
    score.ask(|side| {
        let mut memory = state.memory();
        let ran = side.run(
            Device::Box,
            file.as_slice(),
            &start,
            &mut memory[..length.min(400)],
        );
        match wrong {
            Some(number) => ran.outcome == Err(Fault { number, place: 0 }) && ran.steps == 0,
            None => ran.outcome.is_ok() && ran.steps == 1,
        }
    });
}
