// The public entry: tables to a module file in a buffer that is lent.
ghost use Rattle.std.specs.Prelude.{◌≡◌};
ghost use Rattle.model.specs.Writer.{is_count, write};
ghost use Rattle.writer.specs.Rows.{tables_of};
ghost use Rattle.writer.specs.Reports.{report_of};

use crate::row::InstructionRow;
use crate::tables::Tables;
use crate::target::TargetRow;
use model::{Layout, Refusal, Rule};
use reader::decode::INSTRUCTION;
use reader::field::{HEADER, MOST_INSTRUCTIONS, MOST_TARGETS};
use reader::read::CODE_AT;
use reader::target::TARGET;

// The file's length, or the first of refusals 3, 5, 6, 7 and 16.
pub type Written = Result<u32, Refusal>;

// A count within the file's limits.
fn is_count(most: u16, n: usize) -> bool
    ensures { result ≡ is_count most n }
{
    (1..=usize::from(most)).contains(&n)
}

// The file of the tables into the first bytes of the buffer; those past it stay, and all of them where it is refused.
#[tactic(auto, using(crate::proofs::Answering::answering), unfolding(model::specs::Writer::write, crate::specs::Reports::report_of, reader::specs::Findings::fault_in, model::specs::Answers::fault_of, model::specs::Answers::rule_number))]
pub fn write(
    layout: Layout,
    instructions: &[InstructionRow],
    targets: &[TargetRow],
    buffer: &mut [u8],
) -> Written
    ensures { record { report = report_of result; buffer = buffer.new } ≡ write (tables_of layout instructions.now targets.now) buffer.old }
{
    let n = instructions.len();
    if !is_count(MOST_INSTRUCTIONS, n) {
        return Err(Rule::BadLength.at(CODE_AT));
    }
    let behind = (CODE_AT as usize) + HEADER + INSTRUCTION * n;
    let k = targets.len();
    if !is_count(MOST_TARGETS, k) {
        return Err(Rule::BadLength.at(behind as u32));
    }
    let tables = Tables {
        layout,
        instructions,
        targets,
    };
    tables.check()?;
    let length = behind + HEADER + TARGET * k;
    if buffer.len() < length {
        return Err(Rule::NoSpace.at(0));
    }
    tables.write(buffer);
    Ok(length as u32)
}
