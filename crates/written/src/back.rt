// What the reader makes of a file that was written: layout, counts and instructions are those that were handed over.
use super::tables::Tables;
use model::Instruction;

// Whether the instruction's row is this one.
fn has_row(decoded: Option<Instruction>, row: &[u32; 5]) -> bool {
    decoded.is_some_and(|instruction| writer::row::row_of(instruction) == *row)
}

// The lowest index of a row that is not that of the instruction which it says.
pub(crate) fn no_instruction(code: &[[u32; 5]]) -> Option<usize> {
    code.iter()
        .position(|row| !has_row(writer::row::instruction_of(*row), row))
}

fn code_back(bytes: &[u8], code: &[[u32; 5]]) -> bool {
    code.iter().zip(0..).all(|(row, i)| has_row(reader::decode::instruction_at(bytes, i), row))
}

pub(crate) fn reads_back(file: &[u8], tables: Tables) -> bool {
    reader::read::read(file).is_ok_and(|module| {
        module.layout == tables.layout
            && module.held.instructions as usize == tables.code.len()
            && module.held.targets as usize == tables.doors.len()
            && code_back(module.code, tables.code)
    })
}
