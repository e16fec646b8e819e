// Generated loops, whose claims are worked out: what r0 may be grows from sweep to sweep, up to what a test lets through,
// or until it becomes anything.
use super::build::{ANYTHING, File, Ins, Kind, Layout, Op, binary, immediate, shift};
use super::tally::Worked;
use super::work::compare;
use random::Random;

// The doors at 3 and 5 are inner.
const HEAD: u32 = 3;

const BODY: u32 = 5;

fn test(random: &mut Random, to: u32) -> Ins {
    Ins {
        op: Op::Branch,
        a: random.below(2),
        b: random.below(3),
        w: random.below(3),
        imm: to,
    }
}

// An instruction of the loop's body.
fn inside(random: &mut Random) -> Ins {
    match random.below(12) {
        0 => immediate(Op::Addi, 0, random.below(4).wrapping_neg()),
        1 => binary(Op::Copy, 2, 0),
        2 => binary(Op::Add, 0, 2),
        3 => binary(Op::Sub, 0, 2),
        4 => shift(Op::Shr, 0, random.below(3)),
        5 => immediate(Op::Andi, 0, random.below(32)),
        6 => test(random, HEAD),
        7 => test(random, BODY),
        _ => immediate(Op::Addi, 0, random.below(4)),
    }
}

fn put_start(file: &mut File, random: &mut Random) {
    file.put_instruction(0, immediate(Op::Set, 0, random.below(16)));
    file.put_instruction(1, immediate(Op::Set, 1, random.below(24)));
    file.put_instruction(2, immediate(Op::Set, 2, random.below(4)));
}

// The instruction at 4 halts.
fn put_code(file: &mut File, random: &mut Random, last: u32) {
    put_start(file, random);
    file.put_instruction(HEAD, test(random, BODY));
    for i in BODY..last {
        file.put_instruction(i, inside(random));
    }
    file.put_instruction(last, immediate(Op::Jump, 0, HEAD));
}

// The claims that are written here are of no account.
fn put_doors(file: &mut File) {
    file.put_door(0, 0, Kind::Open);
    file.put_door(1, HEAD, Kind::Inner);
    file.put_door(2, BODY, Kind::Inner);
}

pub(crate) fn case(random: &mut Random, worked: &mut Worked) {
    let last = 6 + random.below(4);
    let mut file = File::new(Layout::from([4096, 256, 16]), last + 1, 3);
    put_code(&mut file, random, last);
    put_doors(&mut file);
    let after = compare(worked, &file);
    worked.claimed(after.claims(1, 0, ANYTHING));
}
