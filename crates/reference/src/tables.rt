// Tables of instructions and doors that are handed over as numbers: what the reader would refuse of them, by 3, 5, 6
// and 7, and the module file that holds them, byte by byte: each is worked out from its offset alone. A number that does
// not fit its bytes in the file is above whatever its rule lets it be.
ghost use Rattle.std.specs.Prelude.{◌≡◌, ◌+◌, ◌*◌, ◌<◌, ◌≤◌, length, IfSome, MatchResult};
ghost use Rattle.reference.specs.Parts.{Untabled};
ghost use Rattle.reference.specs.Verdicts.{Held};

use super::answer::{Refusal, Rule};
use super::decode::decode;
use super::door::Door;
use super::layout::Layout;

// Tables that the reader would not refuse.
#[derive(Clone, Copy)]
pub(crate) struct Tables<'a> {
    layout: Layout,
    instructions: &'a [[u32; 5]],
    doors: &'a [[u32; 18]],
    ghost most_code: { length instructions.now ≤ 4096 },
    ghost most_doors: { length doors.now ≤ 256 },
}

// The lowest number of a row that is no door. (A loop of its own beside `load::read_doors`: rows come from elsewhere and nothing is kept of
// them; the rule is one, `Door::next`.)
fn no_door(doors: &[[u32; 18]], n: usize) -> Option<usize>
    ensures { IfSome result (λ j. j < length doors.now) }
{
    let mut before = None;
    for (j, row) in doors.iter().enumerate() {
        match Door::next(row, before, n, false) {
            Some(door) => before = Some(door.index),
            None => return Some(j),
        }
    }
    None
}

// Byte t of a stretch of four-byte numbers, of which this is the one that stands there.
fn byte_of(number: u32, t: usize) -> u8 {
    number.to_le_bytes()[t % 4]
}

// A field's header is a number of three bytes: the tag, and above it the length of the value.
fn header(tag: u32, length: usize, t: usize) -> u8 {
    byte_of(tag % 256 + (length % 65536) as u32 * 256, t)
}

impl<'a> Tables<'a> {
    // The tables, if they keep 3, 5, 6 and 7: a constructor.
    pub(crate) fn judged(
        layout: Layout,
        instructions: &'a [[u32; 5]],
        doors: &'a [[u32; 18]],
    ) -> Result<Tables<'a>, Refusal>
        ensures { MatchResult result (λ t. Held (21 + 8 * length t.instructions.now + 68 * length t.doors.now) (length instructions.now) (length doors.now)) (λ e. Untabled (length instructions.now) (length doors.now) e) }
    {
        let n = instructions.len();
        let k = doors.len();
        if n == 0 || 4096 < n {
            return Err(Refusal::at(Rule::BadLength, 15));
        }
        if k == 0 || 256 < k {
            return Err(Refusal::at(Rule::BadLength, 18 + n * 8));
        }
        if !layout.is_sound() {
            return Err(Refusal::at(Rule::BadLayout, 0));
        }
        if let Some(i) = instructions.iter().position(|row| decode(*row).is_none()) {
            return Err(Refusal::at(Rule::BadInstruction, i));
        }
        if let Some(j) = no_door(doors, n) {
            return Err(Refusal::at(Rule::BadDoor, j));
        }
        Ok(Tables {
            layout,
            instructions,
            doors,
        })
    }

    // Where the third field begins.
    fn third(self) -> usize
        ensures { result ≡ 18 + 8 * length self.entry.instructions.now }
    {
        18 + 8 * self.instructions.len()
    }

    // The file's length.
    pub(crate) fn length(self) -> usize
        ensures { result ≡ 21 + 8 * length self.entry.instructions.now + 68 * length self.entry.doors.now }
    {
        self.third() + 3 + 68 * self.doors.len()
    }

    fn layout_byte(self, t: usize) -> u8 {
        match t / 4 {
            0 => byte_of(self.layout.base, t),
            1 => byte_of(self.layout.size, t),
            _ => byte_of(self.layout.guard, t),
        }
    }

    fn code_byte(self, t: usize) -> u8 {
        let row = self.instructions.get(t / 8).copied().unwrap_or([0; 5]);
        match t % 8 {
            p if p < 4 => byte_of(row[p], 0),
            p => byte_of(row[4], p),
        }
    }

    // Index, kind and the zero byte are one number of four bytes, and those of the claim follow it.
    fn door_byte(self, t: usize) -> u8 {
        let row = self.doors.get(t / 68).copied().unwrap_or([0; 18]);
        match t % 68 {
            p if p < 4 => byte_of(row[0] % 65536 + row[1] % 256 * 65536, p),
            p => byte_of(row[p / 4 + 1], p),
        }
    }

    // Byte t of the file.
    fn byte(self, t: usize) -> u8 {
        let third = self.third();
        if t < 3 {
            header(1, 12, t)
        } else if t < 15 {
            self.layout_byte(t - 3)
        } else if t < 18 {
            header(2, self.instructions.len() * 8, t - 15)
        } else if t < third {
            self.code_byte(t - 18)
        } else if t < third + 3 {
            header(3, self.doors.len() * 68, t - third)
        } else {
            self.door_byte(t - third - 3)
        }
    }

    pub(crate) fn fill(self, file: &mut [u8]) {
        for (t, byte) in file.iter_mut().enumerate() {
            *byte = self.byte(t);
        }
    }
}
