// Which of two broken rules is named, places of jumps, and checks before jumps. Door 1, where there is one, claims that
// r1 is 5.
use super::answer::Fault;
use super::build::{File, HALT, Ins, Kind, Layout, Op, immediate, unary};
use super::device::Device;
use super::edge::DB;
use super::score::Score;
use Act::{Add, BranchTo, Check, Halt, JumpTo, Jumpr, Pass, Set, Wild};

// The instructions of these modules.
#[derive(Clone, Copy)]
pub enum Act {
    Halt,
    // A step that changes nothing that is known.
    Pass,
    Check(u32),
    Jumpr(u32),
    // To r1.
    Set(u32),
    Add(u32),
    Wild,
    JumpTo(u32),
    // Always taken.
    BranchTo(u32),
}

impl From<Act> for Ins {
    fn from(act: Act) -> Ins {
        match act {
            Halt => HALT,
            Pass => unary(Op::Check, 0),
            Check(r) => unary(Op::Check, r),
            Jumpr(r) => unary(Op::Jumpr, r),
            Set(v) => immediate(Op::Set, 1, v),
            Add(v) => immediate(Op::Addi, 1, v),
            Wild => Ins {
                op: Op::Load,
                b: 3,
                w: 4,
                ..HALT
            },
            JumpTo(to) => immediate(Op::Jump, 0, to),
            BranchTo(to) => immediate(Op::Branch, 0, to),
        }
    }
}

// How many instructions, 3, or 4 of which the fourth halts; where door 1 is; the first three; and the refusal's number
// and place.
pub type OrderRow = (u32, Option<u32>, [Act; 3], Option<(u32, u32)>);

pub const ORDERS: [OrderRow; 18] = [
    (4, Some(3), [Pass, Halt, Jumpr(1)], Some((12, 2))),
    (4, Some(3), [Pass, Halt, Wild], Some((12, 2))),
    (4, Some(3), [Pass, Halt, JumpTo(9)], Some((12, 2))),
    (4, Some(3), [Pass, Halt, Pass], Some((12, 2))),
    (3, None, [Pass, Halt, Pass], Some((12, 2))),
    (3, None, [Pass, JumpTo(0), Halt], Some((12, 2))),
    (3, None, [Pass, Pass, Wild], Some((10, 2))),
    (4, Some(3), [Pass, Pass, Wild], Some((10, 2))),
    (3, None, [Pass, Pass, BranchTo(9)], Some((8, 2))),
    (4, Some(3), [Pass, Pass, BranchTo(9)], Some((8, 2))),
    (3, Some(1), [Halt, Set(6), BranchTo(1)], Some((13, 2))),
    (4, Some(2), [Pass, Pass, JumpTo(9)], Some((11, 1))),
    (4, Some(3), [Pass, Pass, Pass], Some((11, 2))),
    (3, None, [Pass, Pass, Pass], Some((13, 2))),
    (3, None, [Pass, Pass, BranchTo(0)], Some((13, 2))),
    (3, None, [Pass, Pass, Halt], None),
    (3, None, [Pass, Pass, JumpTo(0)], None),
    (3, None, [Pass, Check(7), Jumpr(7)], None),
];

pub const JUMPS: [OrderRow; 16] = [
    (3, None, [Set(5), Check(1), Jumpr(1)], None),
    (4, Some(3), [Set(5), Check(1), Jumpr(1)], None),
    (3, Some(2), [Check(1), Jumpr(1), Halt], None),
    (3, Some(2), [Set(5), Check(1), Jumpr(1)], Some((9, 2))),
    (3, None, [Set(5), Check(2), Jumpr(1)], Some((9, 2))),
    (3, None, [Check(1), Add(0), Jumpr(1)], Some((9, 2))),
    (3, None, [Check(1), Pass, Jumpr(1)], Some((9, 2))),
    (3, None, [Jumpr(1), Check(1), Jumpr(1)], Some((9, 0))),
    (3, None, [Pass, Pass, JumpTo(65536)], Some((8, 2))),
    (4, None, [Pass, Pass, BranchTo(65536)], Some((8, 2))),
    (3, None, [Pass, Pass, JumpTo(131072)], Some((8, 2))),
    (4, None, [Pass, Pass, BranchTo(4292870144)], Some((8, 2))),
    (3, None, [Pass, Pass, JumpTo(1)], Some((8, 2))),
    (3, None, [Pass, Pass, JumpTo(3)], Some((8, 2))),
    (4, None, [Pass, Pass, BranchTo(3)], Some((8, 2))),
    (4, None, [Pass, Pass, BranchTo(0)], None),
];

fn module(layout: Layout, n: u32, inner: Option<u32>, acts: [Act; 3]) -> File {
    let mut file = File::new(layout, n, 1 + u32::from(inner.is_some()));
    for (i, act) in (0..n).zip(acts) {
        file.put_instruction(i, Ins::from(act));
    }
    file.put_door(0, 0, Kind::Open);
    if let Some(index) = inner {
        file.put_door(1, index, Kind::Inner);
        file.put_claim(1, 1, (5, 5));
    }
    file
}

pub(crate) fn order_row(score: &mut Score, row: &OrderRow) {
    let &(n, inner, acts, wrong) = row;
    let file = module(Layout::from([DB, 256, 256]), n, inner, acts);
    score.judge(
        Device::Box,
        file.as_slice(),
        file.verdict(wrong.map(Fault::from)),
    );
}

// The module of the rows below, of 113 bytes.
fn small(layout: [u32; 3]) -> File {
    module(Layout::from(layout), 3, None, [Pass, Pass, Halt])
}

// The size, the second opcode and the kind of the door; the file's length; and the refusal's number and place.
pub type SpoiledRow = ([u32; 3], usize, (u32, u32));

// A module that is right where its size is 256, its second opcode 14 and the kind of its door 1.
pub const SPOILED: [SpoiledRow; 9] = [
    ([256, 14, 1], 114, (4, 113)),
    ([257, 14, 1], 114, (4, 113)),
    ([257, 16, 2], 114, (4, 113)),
    ([257, 14, 1], 113, (5, 0)),
    ([257, 16, 1], 113, (5, 0)),
    ([257, 14, 2], 113, (5, 0)),
    ([256, 16, 1], 113, (6, 1)),
    ([256, 16, 2], 113, (6, 1)),
    ([256, 14, 2], 113, (7, 0)),
];

pub(crate) fn spoiled_row(score: &mut Score, row: &SpoiledRow) {
    let &([size, op, kind], length, wrong) = row;
    let mut file = small([DB, size, 256]);
    file.put::<1>(26, op);
    file.put::<1>(47, kind);
    file.length = length;
    score.judge(Device::Box, file.as_slice(), Err(Fault::from(wrong)));
}

// Base, size and guard, and the refusal's number.
pub type LayoutRow = ([u32; 3], Option<u32>);

pub const LAYOUTS: [LayoutRow; 20] = [
    ([DB, 256, 16], None),
    ([DB, 512, 16], None),
    ([DB, 1024, 16], None),
    ([DB, 2048, 16], None),
    ([DB, 4096, 16], None),
    ([DB, 8192, 16], None),
    ([DB, 16384, 16], None),
    ([DB, 32768, 16], None),
    ([DB, 65536, 16], None),
    ([DB, 128, 16], Some(5)),
    ([DB, 131072, 16], Some(5)),
    ([DB + 128, 256, 16], Some(5)),
    ([DB, 256, 4096], None),
    ([DB, 256, 4097], Some(5)),
    ([256, 256, 256], None),
    ([256, 256, 257], Some(5)),
    ([4294966784, 256, 256], None),
    ([4294966784, 256, 257], Some(5)),
    ([4294967040, 256, 0], None),
    ([0, 512, 0], None),
];

pub(crate) fn layout_row(score: &mut Score, row: &LayoutRow) {
    let &(layout, wrong) = row;
    let file = small(layout);
    let fault = wrong.map(|number| Fault { number, place: 0 });
    score.judge(Device::Box, file.as_slice(), file.verdict(fault));
}
