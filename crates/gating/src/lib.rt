// What a gate program does, with the limits of its device: the bytes of a module on its input, one line on its output: `accepted`,
// instructions, targets, or `refused`, number, place. Of longer input than the longest module, 50,197 bytes, the first 65,536 bytes
// decide: what they come to is what the whole comes to (`LongFiles`, in the model's promises).
#![tactic(auto)]

ghost use Rattle.std.specs.Prelude.{IfOk};
ghost use Rattle.model.specs.Judgement.{judgement};
ghost use Rattle.model.specs.Line.{LinePost};
ghost use Rattle.gating.specs.Judged.{Judged};

use model::Limits;
use std::io::{self, Read, Write};

// How many bytes of the input are read, at most.
const MOST: usize = 65_536;

// Writes the line of a file's judgement at the start of `text`, and answers its length.
fn answer(limits: Limits, file: &[u8], text: &mut [u8; line::ROOM]) -> usize
    ensures { LinePost (judgement limits file.now) text.old text.new result }
{
    let verdict = verifier::verify::verify(limits, file);
    line::write_line(verdict, text)
}

pub fn judge<R: Read, W: Write>(limits: Limits, input: &mut R, output: &mut W) -> io::Result<()>
    ensures { IfOk result (λ _. Judged limits (R.remaining input.old) (R.remaining input.new) (W.contents output.old) (W.contents output.new)) }
{
    // Fixed memory: the input stands in a buffer with its length beside it, as the line does.
    let mut buffer = [0u8; MOST];
    let n = input::read_full(input, &mut buffer)?;
    let mut text = [0u8; line::ROOM];
    let length = answer(limits, &buffer[..n], &mut text);
    output.write_all(&text[..length])
}
