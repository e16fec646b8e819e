// Both writers on the same tables, into buffers that held the same bytes.
use super::answer::Answer;
use super::back::{no_instruction, reads_back};
use super::room::{fill, kept};
use super::tables::{Tables, first};

// The two answers, and whether the bytes are the same and as they should be.
#[derive(Clone, Copy)]
pub struct Both {
    pub ours: Answer,
    pub theirs: Answer,
    pub good: bool,
}

// Where 6 is the refusal, its place has the first row that says no instruction.
fn stands(buffer: &[u8], answer: Answer, tables: Tables) -> bool {
    match answer {
        Ok(length) => {
            let length = length as usize;
            kept(buffer, length) && reads_back(first(buffer, length), tables)
        }
        Err(fault) => {
            kept(buffer, 0)
                && (fault.number != 6 || no_instruction(tables.code) == Some(fault.place as usize))
        }
    }
}

// The buffers are lent whole.
pub(crate) fn write_into(tables: Tables, left: &mut [u8], right: &mut [u8]) -> Both {
    fill(left);
    fill(right);
    let ours = tables.by_ours(left);
    let theirs = tables.by_theirs(right);
    let good = *left == *right && stands(left, ours, tables);
    Both { ours, theirs, good }
}

// The same with buffers of this many bytes.
pub(crate) fn write_both(tables: Tables, room: usize) -> Both {
    let mut left = [0u8; 50400];
    let mut right = [0u8; 50400];
    let end = room.min(50400);
    write_into(tables, &mut left[..end], &mut right[..end])
}
