// The loop's tables and three instructions more, with one number changed.
use super::answer::{Answer, refused};
use super::both::write_both;
use super::sample::{BASE, LAST, loop_tables};
use super::score::Score;
use super::tables::{MOST, Space};
use Number::{Base, Guard, OfDoor, OfInstruction, Size};

// A number of the tables: of the layout, or the one at this place in this row.
#[derive(Clone, Copy)]
pub enum Number {
    Base,
    Size,
    Guard,
    OfInstruction(u32, usize),
    OfDoor(u32, usize),
}

// Seven values for it, and what is answered to each.
#[derive(Clone, Copy)]
pub struct Change {
    number: Number,
    values: [u32; 7],
    answer: Answer,
}

// A file of seven instructions and two doors.
fn right(number: Number, values: [u32; 7]) -> Change {
    Change {
        number,
        values,
        answer: Ok(213),
    }
}

// The rule of layouts, instructions or doors is broken, the last two in this row.
fn wrong(number: Number, values: [u32; 7]) -> Change {
    let answer = match number {
        Base | Size | Guard => refused(5, 0),
        OfInstruction(row, _) => refused(6, row),
        OfDoor(row, _) => refused(7, row),
    };
    Change {
        number,
        values,
        answer,
    }
}

pub(crate) fn layouts() -> [Change; 6] {
    [
        right(Size, [256, 512, 1024, 8192, 16384, 32768, 65536]),
        right(Guard, [0, 1, 255, 257, 4094, 4095, 4096]),
        right(
            Base,
            [
                4096,
                8192,
                65536,
                1048576,
                2147479552,
                2147483648,
                MOST - 8191,
            ],
        ),
        wrong(Size, [0, 128, 255, 257, 300, 131072, MOST]),
        wrong(Guard, [4097, 4098, 8192, 65536, 65792, 2147483648, MOST]),
        wrong(
            Base,
            [0, 256, 4095, BASE + 1, BASE + 2048, MOST - 4095, MOST],
        ),
    ]
}

pub(crate) fn instructions() -> [Change; 19] {
    [
        right(OfInstruction(0, 1), [0, 2, 3, 4, 5, 6, 7]),
        right(OfInstruction(1, 2), [0, 2, 3, 4, 5, 6, 7]),
        right(OfInstruction(1, 3), [1, 2, 4, 129, 130, 1, 2]),
        right(OfInstruction(6, 3), [0, 1, 7, 8, 16, 30, 31]),
        right(
            OfInstruction(2, 4),
            [0, 1, 255, 256, 65536, 2147483648, MOST],
        ),
        right(OfInstruction(3, 4), [0, 1, 4, 7, 65536, 2147483648, MOST]),
        wrong(OfInstruction(0, 0), [16, 255, 256, 263, 272, 65543, MOST]),
        wrong(
            OfInstruction(1, 0),
            [16, 17, 128, 266, 65546, 16777226, MOST],
        ),
        wrong(OfInstruction(0, 1), [8, 15, 128, 255, 256, 257, MOST]),
        wrong(OfInstruction(1, 2), [8, 9, 255, 256, 257, 65537, MOST]),
        wrong(OfInstruction(1, 3), [0, 3, 128, 131, 132, 260, 385]),
        wrong(OfInstruction(4, 3), [0, 3, 5, 129, 130, 258, MOST]),
        wrong(OfInstruction(5, 3), [3, 4, 129, 255, 256, 257, MOST]),
        wrong(OfInstruction(6, 3), [32, 33, 128, 255, 256, 261, MOST]),
        wrong(OfInstruction(0, 2), [1, 7, 128, 255, 256, 65536, MOST]),
        wrong(OfInstruction(0, 3), [1, 4, 129, 255, 256, 65536, MOST]),
        wrong(
            OfInstruction(0, 4),
            [1, 7, 255, 256, 65536, 2147483648, MOST],
        ),
        wrong(OfInstruction(3, 1), [1, 7, 128, 255, 256, 65536, MOST]),
        wrong(OfInstruction(3, 2), [1, 7, 128, 255, 256, 65536, MOST]),
    ]
}

pub(crate) fn doors() -> [Change; 13] {
    [
        right(OfDoor(1, 0), [1, 2, 3, 4, 5, 6, 1]),
        right(OfDoor(1, 2), [0, 1, 255, 65536, 2147483648, MOST - 1, MOST]),
        right(
            OfDoor(1, 4),
            [0, 1, BASE - 1, BASE, LAST, LAST + 3, LAST + 4],
        ),
        right(
            OfDoor(1, 5),
            [BASE, BASE + 1, LAST, LAST + 4, LAST + 5, 2147483648, MOST],
        ),
        right(OfDoor(1, 17), [0, 1, 255, 256, 65536, 2147483648, MOST]),
        wrong(OfDoor(1, 1), [1, 2, 255, 256, 257, 65536, MOST]),
        wrong(OfDoor(1, 0), [0, 7, 8, 4096, 65536, 65537, MOST]),
        wrong(OfDoor(0, 0), [1, 2, 6, 7, 256, 65536, MOST]),
        wrong(OfDoor(0, 1), [0, 2, 3, 255, 256, 257, MOST]),
        wrong(
            OfDoor(1, 4),
            [
                LAST + 5,
                LAST + 6,
                2147483648,
                3221225472,
                4026531840,
                MOST - 1,
                MOST,
            ],
        ),
        wrong(
            OfDoor(1, 5),
            [0, 1, 255, 4096, 268435456, BASE - 2, BASE - 1],
        ),
        wrong(OfDoor(0, 2), [1, 2, 255, 256, 65536, 2147483648, MOST]),
        wrong(OfDoor(0, 17), [0, 1, 255, 256, 65536, 2147483648, MOST - 1]),
    ]
}

// What would lie past the tables' end is left out.
fn put<const N: usize>(rows: &mut [[u32; N]], row: u32, at: usize, value: u32) {
    let i = row as usize;
    if i < rows.len() && at < N {
        rows[i][at] = value;
    }
}

fn with(number: Number, value: u32) -> Space<7, 2> {
    let mut tables = loop_tables();
    match number {
        Base => tables.layout.base = value,
        Size => tables.layout.size = value,
        Guard => tables.layout.guard = value,
        OfInstruction(row, at) => put(&mut tables.code, row, at, value),
        OfDoor(row, at) => put(&mut tables.doors, row, at, value),
    }
    tables
}

pub(crate) fn changes(score: &mut Score, change: &Change) {
    for value in change.values {
        let tables = with(change.number, value);
        score.note(write_both(tables.first(7, 2), 213), change.answer);
    }
}
