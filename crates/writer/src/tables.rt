// The tables that are handed over, with no more rows than a file can have.
ghost use Rattle.std.specs.Prelude.{◌≤◌, length};

use crate::row::InstructionRow;
use crate::target::TargetRow;
use model::Layout;

#[derive(Clone, Copy)]
pub(crate) struct Tables<'a> {
    pub(crate) layout: Layout,
    pub(crate) instructions: &'a [InstructionRow],
    pub(crate) targets: &'a [TargetRow],
    pub(crate) ghost few_instructions: { length instructions.now ≤ 4096 },
    pub(crate) ghost few_targets: { length targets.now ≤ 256 },
}
