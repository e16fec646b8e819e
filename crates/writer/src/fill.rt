// The bytes of a file, one part after another, into a buffer that has room for them. Each function takes the buffer and an offset, and not
// a part of it that is lent: so what all of them promise is one run of stores (`sets`), and these add up by one law.
ghost use Rattle.std.specs.Prelude.{◌≡◌, ℕ, ◌+◌, ◌*◌, ◌≤◌, ◌<◌, List, length};
ghost use mathlib.Core.List.{flat_map, ◌∷◌};
ghost use Rattle.std.proofs.lemmas.List.Edits.{sets};
ghost use Rattle.model.specs.Words.{low_bytes};
ghost use Rattle.model.specs.Writer.{layout_words, row_bytes, target_bytes, file_of};
ghost use Rattle.model.proofs.Writer.Entries.{row_length, target_length};
ghost use Rattle.writer.specs.Rows.{row_of, target_row_of, tables_of};

use crate::row::InstructionRow;
use crate::tables::Tables;
use crate::target;
use crate::target::TargetRow;
use model::Layout;
use reader::decode::INSTRUCTION;
use reader::field::HEADER;
use reader::read::{CODE_AT, CODE_TAG, LAYOUT_TAG, TARGETS_TAG};
use reader::target::TARGET;
use words::bytes::{write_u16, write_u32};

// A row of a table: how many bytes it has in the file, which, and that it writes them.
trait Row: Copy {
    const SIZE: usize;

    ghost SIZE: { ℕ };

    ghost bytes: { Self → List ℕ };

    fn write(self, buffer: &mut [u8], at: usize)
        requires { at + SIZE ≤ length buffer.old }
        ensures { buffer.new ≡ sets buffer.old at (bytes self) };

    ghost long: { (x : Self) → length (bytes x) ≡ SIZE };
}

// "Bytes op, a, b, w, then imm, 32 bits."
impl Row for InstructionRow {
    const SIZE: usize = INSTRUCTION;

    ghost SIZE = { 8 };

    ghost bytes = { λ x. row_bytes (row_of x) };

    #[tactic(auto, using(crate::proofs::Storing::places), unfolding(model::specs::Words::low_bytes, model::specs::Words::write_bytes))]
    fn write(self, buffer: &mut [u8], at: usize) {
        let [op, a, b, w, imm] = self;
        buffer[at] = (op % 256) as u8;
        buffer[at + 1] = (a % 256) as u8;
        buffer[at + 2] = (b % 256) as u8;
        buffer[at + 3] = (w % 256) as u8;
        write_u32(buffer, at + 4, imm);
    }

    ghost long = { λ x. row_length (row_of x) };
}

// Index, kind, a zero byte and the claim.
impl Row for TargetRow {
    const SIZE: usize = TARGET;

    ghost SIZE = { 68 };

    ghost bytes = { λ x. target_bytes (target_row_of x) };

    fn write(self, buffer: &mut [u8], at: usize) {
        buffer[at] = (self[0] % 256) as u8;
        buffer[at + 1] = (self[0] / 256 % 256) as u8;
        buffer[at + 2] = (self[1] % 256) as u8;
        buffer[at + 3] = 0;
        target::write_claim(buffer, at, target::claim_of(self));
    }

    ghost long = { λ x. target_length (target_row_of x) };
}

// One row behind another.
fn write_rows<R: Row>(buffer: &mut [u8], at: usize, rows: &[R])
    requires { at + R.SIZE * length rows.now ≤ length buffer.old }
    ensures { buffer.new ≡ sets buffer.old at (flat_map R.bytes rows.now) }
{
    for (i, row) in rows.iter().enumerate() {
        row.write(buffer, at + R::SIZE * i);
    }
}

// The header of a field: its tag, and how many bytes its value has.
#[tactic(auto, using(crate::proofs::Storing::places), unfolding(model::specs::Words::low_bytes, model::specs::Words::write_bytes))]
fn write_header(buffer: &mut [u8], at: usize, tag: u8, bytes: usize)
    requires { (at + 3 ≤ length buffer.old) × (bytes < 65536) }
    ensures { buffer.new ≡ sets buffer.old at (tag ∷ low_bytes 2 bytes) }
{
    buffer[at] = tag;
    write_u16(buffer, at + 1, bytes as u16);
}

#[tactic(auto, using(crate::proofs::Storing::places), unfolding(model::specs::Words::low_bytes, model::specs::Words::write_bytes))]
fn write_layout(buffer: &mut [u8], at: usize, layout: Layout)
    requires { at + 12 ≤ length buffer.old }
    ensures { buffer.new ≡ sets buffer.old at (layout_words layout) }
{
    write_u32(buffer, at, layout.base);
    write_u32(buffer, at + 4, layout.size);
    write_u32(buffer, at + 8, layout.guard);
}

impl Tables<'_> {
    // The three fields, from the start of the buffer on.
    pub(crate) fn write(&self, buffer: &mut [u8])
        requires { 21 + 8 * length self.now.instructions.now + 68 * length self.now.targets.now ≤ length buffer.old }
        ensures { buffer.new ≡ sets buffer.old 0 (file_of (tables_of self.now.layout self.now.instructions.now self.now.targets.now)) }
    {
        let code_bytes = INSTRUCTION * self.instructions.len();
        let code = (CODE_AT as usize) + HEADER;
        let behind = code + code_bytes;
        write_header(buffer, 0, LAYOUT_TAG, 12);
        write_layout(buffer, HEADER, self.layout);
        write_header(buffer, CODE_AT as usize, CODE_TAG, code_bytes);
        write_rows(buffer, code, self.instructions);
        write_header(buffer, behind, TARGETS_TAG, TARGET * self.targets.len());
        write_rows(buffer, behind + HEADER, self.targets);
    }
}
