// The longest fields, and one instruction or door more. A door's claim of 0 to 0 is no hindrance after a halt. And as
// many doors as there may be, with claims that are worked out.
use super::answer::Fault;
use super::build::{Kind, Layout, LongFile, Op, immediate, instruction_at};
use super::device::Device;
use super::edge::DB;
use super::score::Score;
use super::side::Side;

// Instructions from `checks` - 1 up are checks, and the others halt. Door j is at j; the first is open and claims
// anything, and the others are inner.
pub(crate) fn long(n: u32, k: u32, checks: u32) -> LongFile {
    let mut file = LongFile::new(Layout::from([DB, 256, 256]), n, k);
    for i in checks..n {
        file.put::<1>(instruction_at(i) - 8, Op::Check as u32);
    }
    for j in 0..k {
        file.put::<1>(file.door_at(j), j);
    }
    file.put_door(0, 0, Kind::Open);
    file
}

// How many instructions and doors, and the refusal's number and place.
pub type CountRow = (u32, u32, Option<(u32, u32)>);

pub const COUNTS: [CountRow; 9] = [
    (1, 1, None),
    (4096, 1, None),
    (256, 256, None),
    (4096, 256, None),
    (0, 1, Some((3, 15))),
    (1, 0, Some((3, 26))),
    (4097, 1, Some((3, 15))),
    (257, 257, Some((3, 2074))),
    (4096, 257, Some((3, 32786))),
];

pub(crate) fn count_row(score: &mut Score, row: &CountRow) {
    let &(n, k, wrong) = row;
    let file = long(n, k, k);
    score.judge(
        Device::Box,
        file.as_slice(),
        file.verdict(wrong.map(Fault::from)),
    );
}

// How many instructions.
pub const CHAINS: [u32; 2] = [256, 4096];

// r0 is set to 5, and then every instruction but the last is a check: each passes what is known on to the next, and the
// first 256 are doors. Both leave the same bytes, and the last door claims that r0 is 5.
pub(crate) fn chain_row(score: &mut Score, n: &u32) {
    let mut given = long(*n, 256, 1);
    given.put_instruction(0, immediate(Op::Set, 0, 5));
    let answer = given.verdict(None);
    let mut left = given;
    let mut right = given;
    let x = Side::Ours.work_out(Device::Box, left.as_mut_slice());
    let y = Side::Theirs.work_out(Device::Box, right.as_mut_slice());
    let alike = left == right && left.claims(255, 0, (5, 5));
    score.note(alike && x == answer, alike && y == answer);
}
