// The three fields and the layout: refusals 1 to 5.
ghost use Rattle.std.specs.Prelude.{◌≡◌, ◌<◌, ◌≤◌, length, IsTrue, MatchResult};
ghost use Rattle.reference.specs.Parts.{FieldFound, Listed, Misshapen, Unfound};
ghost use Rattle.reference.specs.Verdicts.{Held};

use super::answer::{Counts, Refusal, Rule};
use super::layout::Layout;
use super::read::{byte, half, word};

// How many instructions and doors a file has, and its layout.
#[derive(Clone, Copy)]
pub(crate) struct Shape {
    pub(crate) n: usize,
    pub(crate) k: usize,
    pub(crate) layout: Layout,
    ghost most_code: { n ≤ 4096 },
    ghost most_doors: { k ≤ 256 },
}

impl Shape {
    // Of no file.
    pub(crate) const EMPTY: Shape = Shape {
        n: 0,
        k: 0,
        layout: Layout {
            base: 0,
            size: 0,
            guard: 0,
        },
    };

    pub(crate) fn counts(self) -> Counts
        ensures code { result.instructions ≡ self.n }
        ensures doors { result.doors ≡ self.k }
    {
        Counts {
            instructions: self.n as u32,
            doors: self.k as u32,
        }
    }

    // Where door j begins in the file.
    pub(crate) fn door_at(self, j: u8) -> usize
        ensures { result < 100000 }
    {
        21 + self.n * 8 + usize::from(j) * 68
    }
}

// A tag is the byte that the file has, 1, 2 or 3, in a field's first place.
fn length_listed(tag: u8, length: usize) -> bool
    ensures { IsTrue result → Listed tag length }
{
    match tag {
        1 => length == 12,
        2 => 0 < length && length % 8 == 0 && length <= 32768,
        _ => 0 < length && length % 68 == 0 && length <= 17408,
    }
}

// The length of a field's value.
fn field(file: &[u8], at: usize, tag: u8) -> Result<usize, Refusal>
    ensures { MatchResult result (λ size. FieldFound (length file.now) at tag size) (λ e. Unfound e) }
{
    let left = file.len().saturating_sub(at);
    if left < 3 {
        return Err(Refusal::at(Rule::Short, at));
    }
    if byte(file, at) != tag {
        return Err(Refusal::at(Rule::WrongTag, at));
    }
    let length = usize::from(half(file, at + 1));
    if !length_listed(tag, length) {
        return Err(Refusal::at(Rule::BadLength, at));
    }
    if left - 3 < length {
        return Err(Refusal::at(Rule::Short, at));
    }
    Ok(length)
}

pub(crate) fn shape_of(file: &[u8]) -> Result<Shape, Refusal>
    ensures { MatchResult result (λ s. Held (length file.now) s.n s.k) (λ e. Misshapen e) }
{
    field(file, 0, 1)?;
    let code = field(file, 15, 2)?;
    let at = 18 + code;
    let doors = field(file, at, 3)?;
    let end = at + 3 + doors;
    if end < file.len() {
        return Err(Refusal::at(Rule::Tail, end));
    }
    let layout = Layout {
        base: word(file, 3),
        size: word(file, 7),
        guard: word(file, 11),
    };
    if !layout.is_sound() {
        return Err(Refusal::at(Rule::BadLayout, 0));
    }
    Ok(Shape {
        n: code / 8,
        k: doors / 68,
        layout,
    })
}
