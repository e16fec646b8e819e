// Counts at the file's limits and beyond, buffers at the file's length and below, and which of two faults is named. The
// instructions halt, and door j is at j.
use super::answer::{Answer, refused};
use super::both::write_both;
use super::sample::loop_layout;
use super::score::Score;
use super::tables::{DOOR, Space};

// How many instructions and doors, and the bytes of the buffer; the layout's size, the opcode of instruction 1 and the kind
// of door 1, which are right where they are 4,096, 0 and 0; and what is answered. Numbers, since such as name nothing are tried too.
#[derive(Clone, Copy)]
pub struct Row {
    n: usize,
    k: usize,
    room: usize,
    size: u32,
    opcode: u32,
    kind: u32,
    answer: Answer,
}

impl Row {
    fn of(n: usize, k: usize, room: usize, answer: Answer) -> Row {
        Row {
            n,
            k,
            room,
            size: 4096,
            opcode: 0,
            kind: 0,
            answer,
        }
    }

    fn sized(self, size: u32) -> Row {
        Row { size, ..self }
    }

    fn opcode(self, opcode: u32) -> Row {
        Row { opcode, ..self }
    }

    fn kind(self, kind: u32) -> Row {
        Row { kind, ..self }
    }
}

pub(crate) fn counts() -> [Row; 23] {
    [
        Row::of(1, 1, 97, Ok(97)),
        Row::of(1, 1, 96, refused(16, 0)),
        Row::of(4, 2, 189, Ok(189)),
        Row::of(4, 2, 188, refused(16, 0)),
        Row::of(4, 2, 21, refused(16, 0)),
        Row::of(4, 2, 0, refused(16, 0)),
        Row::of(4096, 256, 50197, Ok(50197)),
        Row::of(4096, 256, 50400, Ok(50197)),
        Row::of(4096, 256, 50196, refused(16, 0)),
        Row::of(4096, 1, 32857, Ok(32857)),
        Row::of(256, 256, 19477, Ok(19477)),
        Row::of(0, 2, 50400, refused(3, 15)),
        Row::of(0, 0, 50400, refused(3, 15)),
        Row::of(0, 257, 50400, refused(3, 15)),
        Row::of(1, 0, 50400, refused(3, 26)),
        Row::of(4, 0, 50400, refused(3, 50)),
        Row::of(4097, 2, 50400, refused(3, 15)),
        Row::of(4097, 0, 50400, refused(3, 15)),
        Row::of(4097, 257, 50400, refused(3, 15)),
        Row::of(1, 257, 50400, refused(3, 26)),
        Row::of(257, 257, 50400, refused(3, 2074)),
        Row::of(4096, 257, 50400, refused(3, 32786)),
        Row::of(4, 0, 0, refused(3, 50)),
    ]
}

pub(crate) fn orders() -> [Row; 16] {
    [
        Row::of(0, 2, 213, refused(3, 15)).sized(300),
        Row::of(7, 0, 213, refused(3, 74)).sized(300),
        Row::of(0, 2, 213, refused(3, 15)).opcode(16),
        Row::of(7, 0, 213, refused(3, 74)).opcode(16).kind(2),
        Row::of(0, 2, 0, refused(3, 15)),
        Row::of(7, 2, 213, refused(5, 0)).sized(300).opcode(16),
        Row::of(7, 2, 213, refused(5, 0)).sized(300).kind(2),
        Row::of(7, 2, 212, refused(5, 0)).sized(300),
        Row::of(7, 2, 213, refused(6, 1)).opcode(16).kind(2),
        Row::of(7, 2, 212, refused(6, 1)).opcode(16),
        Row::of(7, 2, 212, refused(7, 1)).kind(2),
        Row::of(7, 2, 0, refused(7, 1)).kind(2),
        Row::of(7, 2, 212, refused(16, 0)),
        Row::of(7, 1, 145, Ok(145)).kind(2),
        Row::of(1, 1, 97, Ok(97)).opcode(16).kind(2),
        Row::of(7, 2, 300, Ok(213)),
    ]
}

pub(crate) fn limits(score: &mut Score, row: &Row) {
    let mut tables = Space {
        layout: loop_layout(row.size),
        code: [[0; 5]; 4097],
        doors: [DOOR; 257],
    };
    for (door, j) in tables.doors.iter_mut().zip(0..) {
        door[0] = j;
    }
    tables.doors[0][1] = 1;
    tables.code[1][0] = row.opcode;
    tables.doors[1][1] = row.kind;
    score.note(write_both(tables.first(row.n, row.k), row.room), row.answer);
}
