// The line that the gate program prints, written into a buffer: `accepted`, instructions, targets, or `refused`, number, place.
#![tactic(auto)]

ghost use Rattle.std.specs.Prelude.{◌∷◌, ◌+◌, ◌≤◌, length};
ghost use Rattle.model.specs.Answers.{judgement_of};
ghost use Rattle.model.specs.Line.{decimal, line_with, LinePost};
ghost use Rattle.line.specs.Wrote.{Wrote};

use model::Verdict;

// Room for the longest line: `accepted`, two numbers of ten digits, two spaces and a newline are 31 bytes.
pub const ROOM: usize = 32;

// This function and those below write into `out`, from `at` on, and answer where what they wrote ends. std's formatting is not used:
// its clauses say what was written where it answers `Ok`, and not that a buffer with room makes it answer so.
fn put(out: &mut [u8], at: usize, text: &[u8]) -> usize
    requires { at + length text.now ≤ length out.old }
    ensures { Wrote out.old out.new at text.now result }
{
    let end = at + text.len();
    out[at..end].copy_from_slice(text);
    end
}

fn put_number(out: &mut [u8], at: usize, n: u32) -> usize
    requires { at + length (decimal n) ≤ length out.old }
    ensures { Wrote out.old out.new at (decimal n) result }
{
    let last = [b'0' + (n % 10) as u8];
    if n < 10 {
        return put(out, at, &last);
    }
    let end = put_number(out, at, n / 10);
    put(out, end, &last)
}

// A space and a number.
fn put_field(out: &mut [u8], at: usize, n: u32) -> usize
    requires { at + 11 ≤ length out.old }
    ensures { Wrote out.old out.new at (32 ∷ decimal n) result }
{
    let next = put(out, at, b" ");
    put_number(out, next, n)
}

fn put_line(out: &mut [u8], word: &[u8], first: u32, second: u32) -> usize
    requires { length word.now + 23 ≤ length out.old }
    ensures { Wrote out.old out.new 0 (line_with word.now first second) result }
{
    let mut at = put(out, 0, word);
    at = put_field(out, at, first);
    at = put_field(out, at, second);
    put(out, at, b"\n")
}

// Writes the line of a verdict at the start of `out`, and answers its length.
pub fn write_line(verdict: Verdict, out: &mut [u8; ROOM]) -> usize
    ensures { LinePost (judgement_of verdict) out.old out.new result }
{
    match verdict {
        Ok(held) => put_line(out, b"accepted", held.instructions, held.targets),
        Err(refusal) => put_line(out, b"refused", u32::from(refusal.rule), refusal.place),
    }
}
