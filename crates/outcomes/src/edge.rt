// What the rules leave of a range, seen from outside: the claim of just that range is accepted, and a claim that is
// narrower by one at either end is refused by 11. Door 1 claims what is known before the instruction at 1, and door 2
// is the one where its edge leads.
use super::answer::{Fault, Verdict};
use super::build::{ANYTHING, File, Ins, Kind, Layout, MOST, Op, Span, accesses, unary};
use super::device::Device;
use super::score::Score;

// The region of most of these modules is DB to DL.
pub const DB: u32 = 536870912;

pub const DL: u32 = 536871167;

const TOO_NARROW: Verdict = Err(Fault {
    number: 11,
    place: 1,
});

// Where the region begins; what is known of r1 and r2; the instruction, and where its edge leads, to 2 or 3.
#[derive(Clone, Copy)]
struct Edge {
    base: u32,
    known: [Span; 2],
    x: Ins,
    to: u32,
}

impl Edge {
    // Instructions 0, 2 and 3 halt; where door 2 is at 2, a check stands there, as 3 is no door.
    fn file(&self) -> File {
        let mut file = File::new(Layout::from([self.base, 256, 256]), 4, 3);
        file.put_instruction(1, self.x);
        if self.to == 2 {
            file.put_instruction(2, unary(Op::Check, 0));
        }
        let [first, second] = self.known;
        file.put_door(0, 0, Kind::Open);
        file.put_door(1, 1, Kind::Inner);
        file.put_claim(1, 1, first);
        file.put_claim(1, 2, second);
        file.put_door(2, self.to, Kind::Inner);
        file
    }

    // The range of register r along the edge.
    fn leaves(&self, score: &mut Score, r: u32, left: Span) {
        let (low, high) = left;
        let mut file = self.file();
        file.put_claim(2, r, left);
        score.judge(Device::Box, file.as_slice(), file.verdict(None));
        if low < MOST {
            file.put_claim(2, r, (low + 1, MOST));
            score.judge(Device::Box, file.as_slice(), TOO_NARROW);
        }
        if 0 < high {
            file.put_claim(2, r, (0, high - 1));
            score.judge(Device::Box, file.as_slice(), TOO_NARROW);
        }
    }
}

// The opcode; a, b, w and imm; the lowest and highest of r1 and of r2 before; and after, along the edge that a branch to
// 3 takes, else to the next index.
pub type RangeRow = (Op, [u32; 4], [u32; 4], [u32; 4]);

pub(crate) fn range_row(score: &mut Score, row: &RangeRow) {
    let &(op, operands, [low1, high1, low2, high2], after) = row;
    let x = Ins::from((op, operands));
    let edge = Edge {
        base: DB,
        known: [(low1, high1), (low2, high2)],
        x,
        to: if op == Op::Branch && x.imm == 3 { 3 } else { 2 },
    };
    let [low1, high1, low2, high2] = after;
    edge.leaves(score, 1, (low1, high1));
    edge.leaves(score, 2, (low2, high2));
}

// The edge from an access through r1, of which this is known.
fn through_r1(base: u32, op: Op, w: u32, imm: u32, known: Span) -> Edge {
    Edge {
        base,
        known: [known, ANYTHING],
        x: Ins {
            op,
            a: 2,
            b: 1,
            w,
            imm,
        },
        to: 2,
    }
}

// Where the region begins; w and imm of an access through r1; and r1 before and after.
pub type CutRow = (u32, u32, u32, Span, Span);

// Every cut by a load, and by a store where it takes the width.
pub(crate) fn cut_row(score: &mut Score, row: &CutRow) {
    let &(base, w, imm, before, after) = row;
    for op in accesses(w) {
        through_r1(base, *op, w, imm, before).leaves(score, 1, after);
    }
}

// An access through r1; door 2 claims 0 to `high` of r2, the register that is loaded or stored; and the number of the
// refusal.
fn permits(score: &mut Score, edge: Edge, high: u32, wrong: Option<u32>) {
    let mut file = edge.file();
    file.put_claim(2, 2, (0, high));
    let fault = wrong.map(|number| Fault { number, place: 1 });
    score.judge(Device::Box, file.as_slice(), file.verdict(fault));
}

// w and imm of an access through r1, r1 before it, and the number of the refusal.
pub type AccessRow = (u32, u32, Span, Option<u32>);

// Every access as a load, and as a store where it takes the width.
pub(crate) fn access_row(score: &mut Score, row: &AccessRow) {
    let &(w, imm, known, wrong) = row;
    for op in accesses(w) {
        permits(score, through_r1(DB, *op, w, imm, known), MOST, wrong);
    }
}

// An opcode and w, the highest value that the door after it claims of the loaded register, and the number of the
// refusal.
pub type WidthRow = (Op, u32, u32, Option<u32>);

pub(crate) fn width_row(score: &mut Score, row: &WidthRow) {
    let &(op, w, high, wrong) = row;
    permits(score, through_r1(DB, op, w, 0, (DB, DL)), high, wrong);
}
