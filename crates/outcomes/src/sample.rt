// Signed samples, as ticket 2 of document 02 has them: what a load gives, and which widths loads and stores take.
use super::build::Op::{Branch, Load, Store};
use super::build::{Ins, MOST, Op};
use super::edge::{DB, WidthRow};
use super::score::Score;
use super::step::{FIVE_TO_EIGHT, State, Step};

// The register a, 0, or 1, which is also b; w; the word in memory that begins at the sample; and a after the load.
pub type SampleRow = (u32, u32, u32, u32);

// The bytes after the sample are of no account, and 1 and 2 still carry no sign.
pub const SAMPLES: [SampleRow; 26] = [
    (0, 129, 0x00, 0),
    (0, 129, 0x7F, 127),
    (0, 129, 0x80, 0xFFFFFF80),
    (0, 129, 0xFF, 0xFFFFFFFF),
    (0, 129, 0xFFFFFF00, 0),
    (0, 129, 0xFFFFFF7F, 127),
    (0, 129, 0x7F7F7F80, 0xFFFFFF80),
    (0, 130, 0x0000, 0),
    (0, 130, 0x7FFF, 32767),
    (0, 130, 0x8000, 0xFFFF8000),
    (0, 130, 0xFFFF, 0xFFFFFFFF),
    (0, 130, 0x0080, 128),
    (0, 130, 0x00FF, 255),
    (0, 130, 0x807F, 0xFFFF807F),
    (0, 130, 0xFFFF0000, 0),
    (0, 130, 0xFFFF7FFF, 32767),
    (0, 130, 0x7FFF8000, 0xFFFF8000),
    (1, 129, 0x00, 0),
    (1, 129, 0x7F, 127),
    (1, 129, 0x80, 0xFFFFFF80),
    (1, 130, 0x7FFF, 32767),
    (1, 130, 0x8000, 0xFFFF8000),
    (0, 1, 0x80, 128),
    (0, 1, 0xFFFFFFFF, 255),
    (0, 2, 0x8000, 32768),
    (0, 2, 0xFFFFFFFF, 65535),
];

pub(crate) fn sample_row(score: &mut Score, row: &SampleRow) {
    let &(a, w, word, loaded) = row;
    let x = Ins {
        op: Op::Load,
        a,
        b: 1,
        w,
        imm: 0,
    };
    let words = [word, FIVE_TO_EIGHT];
    let before = State {
        registers: [0, DB, 0],
        words,
    };
    let after = State {
        registers: if a == 0 {
            [loaded, DB, 0]
        } else {
            [0, loaded, 0]
        },
        words,
    };
    Step::of(x, before, after).ask(score);
}

// First the widths that are taken, and claims narrower than the range afterwards; then those that are not taken.
pub const WIDTHS: [WidthRow; 38] = [
    (Load, 1, 255, None),
    (Load, 2, 65535, None),
    (Load, 4, MOST, None),
    (Load, 129, MOST, None),
    (Load, 130, MOST, None),
    (Load, 129, 255, Some(11)),
    (Load, 130, 65535, Some(11)),
    (Load, 129, 127, Some(11)),
    (Load, 130, 32767, Some(11)),
    (Store, 1, MOST, None),
    (Store, 2, MOST, None),
    (Store, 4, MOST, None),
    (Branch, 0, MOST, None),
    (Branch, 1, MOST, None),
    (Branch, 2, MOST, None),
    (Load, 0, MOST, Some(6)),
    (Load, 3, MOST, Some(6)),
    (Load, 5, MOST, Some(6)),
    (Load, 8, MOST, Some(6)),
    (Load, 127, MOST, Some(6)),
    (Load, 128, MOST, Some(6)),
    (Load, 131, MOST, Some(6)),
    (Load, 132, MOST, Some(6)),
    (Load, 133, MOST, Some(6)),
    (Load, 255, MOST, Some(6)),
    (Store, 0, MOST, Some(6)),
    (Store, 3, MOST, Some(6)),
    (Store, 5, MOST, Some(6)),
    (Store, 127, MOST, Some(6)),
    (Store, 128, MOST, Some(6)),
    (Store, 129, MOST, Some(6)),
    (Store, 130, MOST, Some(6)),
    (Store, 131, MOST, Some(6)),
    (Store, 132, MOST, Some(6)),
    (Store, 255, MOST, Some(6)),
    (Branch, 3, MOST, Some(6)),
    (Branch, 129, MOST, Some(6)),
    (Branch, 130, MOST, Some(6)),
];
