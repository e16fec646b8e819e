// The public entry: the bytes of a module file, whose direct targets' claims are worked out.
ghost use Rattle.std.specs.Prelude.{◌≡◌, false, length};
ghost use Rattle.model.specs.Answers.{judgement_of};
ghost use Rattle.model.specs.File.{code_in, targets_in, instruction_count, layout_in, program_in};
ghost use Rattle.model.specs.Claims.{worked_out, work_out};
ghost use Rattle.reader.specs.Readings.{holds, loading_by};
ghost use Rattle.claims.specs.Tables.{entries_in};

use crate::entry::Row;
use crate::{exchange, sweep};
use model::{Limits, Verdict};
use reader::{read, target};
use verifier::verify;

// As many as a module can have targets.
const ROWS: usize = 256;

// A file that keeps 1 to 6, 7 but for its claims, and 17, with the claims that were worked out: they are exchanged for its own, and back if
// the verifier refuses.
fn finish(limits: Limits, file: &mut [u8], rows: &mut [Row]) -> Verdict
    requires { (loading_by false limits file.old ≡ holds (layout_in file.old) (instruction_count (code_in file.old)) (length rows.old)) × (entries_in (targets_in file.old) rows.old ≡ (worked_out (program_in file.old)).entries) }
    ensures { record { judgement = judgement_of result; bytes = file.new } ≡ work_out limits file.old }
{
    let start = file.len() - target::TARGET * rows.len();
    exchange::exchange(&mut file[start..], rows);
    match verify::verify(limits, file) {
        Ok(held) => Ok(held),
        Err(refusal) => {
            exchange::exchange(&mut file[start..], rows);
            Err(refusal)
        }
    }
}

// A device's verdict on a module's bytes with its direct targets' claims worked out. Accepted, the bytes have these claims; refused, they
// are as they came.
pub fn work_out(limits: Limits, file: &mut [u8]) -> Verdict
    ensures { record { judgement = judgement_of result; bytes = file.new } ≡ work_out limits file.old }
{
    let module = read::load_but_claims(limits, file)?;
    let mut table = [Row::fresh(None); ROWS];
    let rows = &mut table[..module.held.targets as usize];
    sweep::begin(module.targets, rows);
    sweep::sweep_all(&module, rows);
    finish(limits, file, rows)
}
