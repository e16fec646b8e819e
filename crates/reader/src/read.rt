// The whole module file: refusals 1 to 7 in their order, and the module that machine and verifier go on with.
ghost use Rattle.std.specs.Prelude.{◌≡◌, false, IfOk};
ghost use Rattle.model.specs.Obligations.{first_fault};
ghost use Rattle.model.specs.File.{code_start, targets_at, instruction_in, target_row_in, table_rules};
ghost use Rattle.reader.specs.Findings.{fault_in};
ghost use Rattle.reader.specs.Fields.{ValuePart};
ghost use Rattle.reader.specs.Readings.{PartsOf, asked, reading_of, reading_by, reading, loading_by, loading};

use crate::module::Module;
use crate::{decode, field, finding, layout, limits, target};
use model::{Contents, Layout, Limits, Refusal, Rule};

// The tags of the three fields, and the offsets of the first two. A tag is a byte of the file, and a field may be asked for by any.
pub const LAYOUT_TAG: u8 = 1;

pub const CODE_TAG: u8 = 2;

pub const TARGETS_TAG: u8 = 3;

pub const LAYOUT_AT: u32 = 0;

pub const CODE_AT: u32 = 15;

// For those who have no verdict yet: the code, and nothing where its field is refused.
pub fn code_in(file: &[u8]) -> &[u8]
    ensures { ValuePart file.entry result code_start 2 }
{
    field::field_value(file, CODE_AT, CODE_TAG)
}

// And the targets, in the same way.
pub fn targets_in(file: &[u8]) -> &[u8]
    ensures { ValuePart file.entry result (targets_at file.now) 3 }
{
    field::field_value(file, field::field_end(file, CODE_AT), TARGETS_TAG)
}

// 5, 6, 7; where claims are ignored, 7 but for the order of their ends.
fn check_module(
    layout: Layout,
    code: &[u8],
    targets: &[u8],
    held: Contents,
    claims: bool,
) -> Result<(), Refusal>
    ensures { fault_in result ≡ first_fault (table_rules (asked claims) layout held.instructions (instruction_in code.now) held.targets (target_row_in targets.now)) }
{
    if !layout::is_layout(layout) {
        return Err(Rule::BadLayout.at(0));
    }
    finding::check_each(held.instructions, Rule::BadInstruction, |i| {
        decode::instruction_at(code, i).is_some()
    })?;
    finding::check_each(held.targets, Rule::BadTarget, |j| {
        target::is_good_target(held.instructions, targets, j, claims)
    })
}

// The three fields one after another, 4, then the module. That its parts are the file's is promised here and below, since a module does
// not hold the file of which its type could say so.
fn read_module(file: &[u8], claims: bool) -> Result<Module<'_>, Refusal>
    ensures report { reading_of result ≡ reading_by claims file.now }
    ensures parts { IfOk result (λ m. PartsOf file.entry m) }
{
    let layout = layout::layout_of(field::read_field(file, LAYOUT_AT, LAYOUT_TAG)?);
    let code = field::read_field(file, CODE_AT, CODE_TAG)?;
    let targets_at = field::field_end(file, CODE_AT);
    let targets = field::read_field(file, targets_at, TARGETS_TAG)?;
    let end = field::field_end(file, targets_at);
    if file.len() != (end as usize) {
        return Err(Rule::TrailingBytes.at(end));
    }
    let held = Contents {
        instructions: (code.len() / decode::INSTRUCTION) as u32,
        targets: (targets.len() / target::TARGET) as u32,
    };
    check_module(layout, code, targets, held, claims)?;
    Ok(Module {
        layout,
        code,
        targets,
        held,
    })
}

// A module's bytes: the module, or the first of refusals 1 to 7.
pub fn read(file: &[u8]) -> Result<Module<'_>, Refusal>
    ensures report { reading_of result ≡ reading file.now }
    ensures parts { IfOk result (λ m. PartsOf file.entry m) }
{
    read_module(file, true)
}

// A module that a device with such limits holds.
fn load_module(limits: Limits, file: &[u8], claims: bool) -> Result<Module<'_>, Refusal>
    ensures report { reading_of result ≡ loading_by claims limits file.now }
    ensures parts { IfOk result (λ m. PartsOf file.entry m) }
{
    let module = read_module(file, claims)?;
    limits::check(limits, module.held)?;
    Ok(module)
}

// What a device begins with: the module, or the first of refusals 1 to 7 and 17.
pub fn load(limits: Limits, file: &[u8]) -> Result<Module<'_>, Refusal>
    ensures report { reading_of result ≡ loading limits file.now }
    ensures parts { IfOk result (λ m. PartsOf file.entry m) }
{
    load_module(limits, file, true)
}

// The same, claims ignored: 7 but for the order of their ends.
pub fn load_but_claims(limits: Limits, file: &[u8]) -> Result<Module<'_>, Refusal>
    ensures report { reading_of result ≡ loading_by false limits file.now }
    ensures parts { IfOk result (λ m. PartsOf file.entry m) }
{
    load_module(limits, file, false)
}
