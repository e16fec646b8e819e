// A module file in flat tables, and refusals 6, 7 and 17.
ghost use Rattle.std.specs.Prelude.{◌<◌, length, IfErr, MatchResult};
ghost use Rattle.reference.specs.Parts.{ReadIn, Unheld, Unread};

use super::answer::{Refusal, Rule};
use super::decode::{Ins, decode};
use super::device::Limits;
use super::door::{Door, Kind};
use super::field::{Shape, shape_of};
use super::know::Known;
use super::read::{byte, half, put, word};

// The door that stands at an index: its kind, and which of the doors it is.
#[derive(Clone, Copy)]
pub(crate) struct Mark {
    pub(crate) kind: Kind,
    pub(crate) number: u8,
}

// Instructions and doors by index, and claims by number, in fixed memory as long as a file's fields may be. Instructions and doors are two tables, since each is filled from
// a field of its own and looked up without the other.
#[derive(Clone, Copy)]
pub(crate) struct Module {
    pub(crate) shape: Shape,
    code: [Ins; 4096],
    marks: [Option<Mark>; 4096],
    pub(crate) claims: [Known; 256],
}

// The row of an instruction in the file.
fn row(file: &[u8], at: usize) -> [u32; 5]
    requires { at < 100000 }
{
    [
        u32::from(byte(file, at)),
        u32::from(byte(file, at + 1)),
        u32::from(byte(file, at + 2)),
        u32::from(byte(file, at + 3)),
        word(file, at + 4),
    ]
}

// The row of a door in the file. The zero byte counts with the kind, so that with another one there is none.
fn door_row(file: &[u8], at: usize) -> [u32; 18]
    requires { at < 100000 }
{
    let mut row = [0; 18];
    for (p, number) in row.iter_mut().enumerate() {
        *number = match p {
            0 => u32::from(half(file, at)),
            1 => u32::from(half(file, at + 2)),
            _ => word(file, at + p * 4 - 4),
        };
    }
    row
}

// Instructions by index, into a table of halts.
fn read_code(file: &[u8], shape: Shape, code: &mut [Ins; 4096]) -> Result<(), Refusal>
    ensures { IfErr result (λ e. Unread shape.n shape.k e) }
{
    for i in 0..shape.n {
        code[i] = decode(row(file, 18 + i * 8)).ok_or(Refusal::at(Rule::BadInstruction, i))?;
    }
    Ok(())
}

// What stands at each index, into a table of no doors, and what each door claims. Where the claims are `free`, those of
// inner doors are not looked at, and are anything.
fn read_doors(
    file: &[u8],
    shape: Shape,
    free: bool,
    marks: &mut [Option<Mark>; 4096],
    claims: &mut [Known; 256],
) -> Result<(), Refusal>
    ensures { IfErr result (λ e. Unread shape.n shape.k e) }
{
    let mut before = None;
    for j in 0..shape.k {
        let number = j as u8;
        let row = door_row(file, shape.door_at(number));
        let door = Door::next(&row, before, shape.n, free).ok_or(Refusal::at(Rule::BadDoor, j))?;
        before = Some(door.index);
        claims[j] = door.claim;
        if let Some(mark) = marks.get_mut(door.index) {
            *mark = Some(Mark {
                kind: door.kind,
                number,
            });
        }
    }
    Ok(())
}

// The index behind one.
pub(crate) fn next(i: usize) -> usize {
    i % 4096 + 1
}

impl Module {
    // What a file is read into. A call makes it once and lends it, as it is too large to be moved, and it is all zero, claims too, so
    // that one write makes it.
    pub(crate) const EMPTY: Module = Module {
        shape: Shape::EMPTY,
        code: [Ins::HALT; 4096],
        marks: [None; 4096],
        claims: [Known::ZERO; 256],
    };

    // Reads a file into an empty module. The limits come after all that the file has to keep.
    pub(crate) fn read(&mut self, limits: Limits, file: &[u8], free: bool) -> Result<(), Refusal>
        ensures { MatchResult result (λ _. ReadIn limits (length file.now) self.new.shape.n self.new.shape.k) (λ e. Unheld limits e) }
    {
        let shape = shape_of(file)?;
        read_code(file, shape, &mut self.code)?;
        read_doors(file, shape, free, &mut self.marks, &mut self.claims)?;
        self.shape = shape;
        limits.hold(shape)
    }

    // The instruction at an index, a halt past the end.
    pub(crate) fn at(&self, i: usize) -> Ins {
        self.code.get(i).copied().unwrap_or(Ins::HALT)
    }

    // The door at an index, none past the end.
    pub(crate) fn door(&self, i: usize) -> Option<Mark> {
        self.marks.get(i).copied().flatten()
    }

    pub(crate) fn is_door(&self, i: usize) -> bool {
        self.door(i).is_some()
    }

    pub(crate) fn is_open(&self, i: usize) -> bool {
        self.door(i).is_some_and(|mark| mark.kind == Kind::Open)
    }

    // The claims over those in the file; those of open doors are what they were.
    pub(crate) fn write_claims(&self, file: &mut [u8]) {
        for j in 0..self.shape.k {
            let at = self.shape.door_at(j as u8) + 4;
            for (r, span) in self.claims[j].spans.iter().enumerate() {
                put(file, at + r * 8, 4, span.lo);
                put(file, at + r * 8 + 4, 4, span.hi);
            }
        }
    }
}
