// Document 01's loop: its tables, with three instructions more for other cases, and its file.
use super::both::write_into;
use super::score::Score;
use super::tables::{DOOR, Space, first};
use model::Layout;

pub const BASE: u32 = 536870912;

// The region's last address, DL.
pub const LAST: u32 = BASE + 4095;

// The loop's layout, with this size.
pub(crate) fn loop_layout(size: u32) -> Layout {
    Layout {
        base: BASE,
        size,
        guard: 256,
    }
}

// The loop's instructions, and after them a store, a branch and a shift; and its doors: the first is open, and the second
// claims DB to DL + 4 for r1.
pub(crate) fn loop_tables() -> Space<7, 2> {
    let mut doors = [DOOR; 2];
    doors[0][1] = 1;
    doors[1][0] = 1;
    doors[1][4] = BASE;
    doors[1][5] = LAST + 4;
    Space {
        layout: loop_layout(4096),
        code: [
            [7, 1, 0, 0, 0],
            [10, 0, 1, 4, 0],
            [4, 1, 0, 0, 4],
            [12, 0, 0, 0, 1],
            [11, 0, 1, 4, 0],
            [13, 0, 1, 1, 0],
            [8, 0, 0, 5, 0],
        ],
        doors,
    }
}

// The loop's file: a line for each header, for the layout and for each instruction; of a door one for index, kind and the
// zero byte, and one for each register.
fn is_loop(file: &[u8]) -> bool {
    let expected: &[u8] = b"\x01\x0C\x00\
          \x00\x00\x00\x20\x00\x10\x00\x00\x00\x01\x00\x00\
          \x02\x20\x00\
          \x07\x01\x00\x00\x00\x00\x00\x00\
          \x0A\x00\x01\x04\x00\x00\x00\x00\
          \x04\x01\x00\x00\x04\x00\x00\x00\
          \x0C\x00\x00\x00\x01\x00\x00\x00\
          \x03\x88\x00\
          \x00\x00\x01\x00\
          \x00\x00\x00\x00\xFF\xFF\xFF\xFF\
          \x00\x00\x00\x00\xFF\xFF\xFF\xFF\
          \x00\x00\x00\x00\xFF\xFF\xFF\xFF\
          \x00\x00\x00\x00\xFF\xFF\xFF\xFF\
          \x00\x00\x00\x00\xFF\xFF\xFF\xFF\
          \x00\x00\x00\x00\xFF\xFF\xFF\xFF\
          \x00\x00\x00\x00\xFF\xFF\xFF\xFF\
          \x00\x00\x00\x00\xFF\xFF\xFF\xFF\
          \x01\x00\x00\x00\
          \x00\x00\x00\x00\xFF\xFF\xFF\xFF\
          \x00\x00\x00\x20\x03\x10\x00\x20\
          \x00\x00\x00\x00\xFF\xFF\xFF\xFF\
          \x00\x00\x00\x00\xFF\xFF\xFF\xFF\
          \x00\x00\x00\x00\xFF\xFF\xFF\xFF\
          \x00\x00\x00\x00\xFF\xFF\xFF\xFF\
          \x00\x00\x00\x00\xFF\xFF\xFF\xFF\
          \x00\x00\x00\x00\xFF\xFF\xFF\xFF";
    file == expected
}

// The loop's tables, into a buffer of this many bytes.
pub(crate) fn loops(score: &mut Score, room: &usize) {
    let tables = loop_tables();
    let mut left = [0u8; 256];
    let mut right = [0u8; 256];
    let end = (*room).min(256);
    let mut both = write_into(tables.first(4, 2), &mut left[..end], &mut right[..end]);
    both.good = both.good && is_loop(first(&left, 189));
    score.note(both, Ok(189));
}
