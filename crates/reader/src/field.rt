// Fields: "a one-byte tag, a two-byte length and that many bytes of value". Refusals 1, 2 and 3.
ghost use Rattle.std.specs.Prelude.{◌≡◌, ◌+◌, ◌≤◌, ◌<◌, IfOk};
ghost use Rattle.model.specs.Obligations.{first_fault};
ghost use Rattle.model.specs.File.{field_end, is_multiple, is_listed, field};
ghost use Rattle.reader.specs.Findings.{fault_in};
ghost use Rattle.reader.specs.Fields.{ValuePart};

use crate::decode::INSTRUCTION;
use crate::read::{CODE_TAG, LAYOUT_TAG, TARGETS_TAG};
use crate::target::TARGET;
use model::{Refusal, Rule};

// The bytes of a tag and a length.
pub const HEADER: usize = 3;

// "n from 1 to 4,096"; "k from 1 to 256"
pub const MOST_INSTRUCTIONS: u16 = 4096;

pub const MOST_TARGETS: u16 = 256;

// A number of units, from one to the most.
fn is_multiple(unit: u16, most: u16, n: u16) -> bool
    requires { 0 < unit }
    ensures { result ≡ is_multiple unit most n }
{
    n % unit == 0 && 1 <= n / unit && n / unit <= most
}

// The lengths that are listed for a tag.
fn is_listed(tag: u8, n: u16) -> bool
    ensures { result ≡ is_listed tag n }
{
    match tag {
        LAYOUT_TAG => n == 12,
        CODE_TAG => is_multiple(INSTRUCTION as u16, MOST_INSTRUCTIONS, n),
        TARGETS_TAG => is_multiple(TARGET as u16, MOST_TARGETS, n),
        _ => false,
    }
}

// The value of the field that is due at an offset, with the tag that is due: a part of the file, or the refusal.
pub fn read_field(file: &[u8], at: u32, tag: u8) -> Result<&[u8], Refusal>
    ensures judged { fault_in result ≡ first_fault (field file.now at tag) }
    ensures value { IfOk result (λ part. ValuePart file.entry part at tag) }
{
    let start = at as usize;
    let all = file.len();
    if all < start + HEADER {
        return Err(Rule::Truncated.at(at));
    }
    if file[start] != tag {
        return Err(Rule::WrongTag.at(at));
    }
    let length = words::bytes::read_u16(file, start + 1);
    if !is_listed(tag, length) {
        return Err(Rule::BadLength.at(at));
    }
    let value = start + HEADER;
    let n = length as usize;
    if all - value < n {
        return Err(Rule::Truncated.at(at));
    }
    Ok(&file[value..value + n])
}

// For those who have no verdict yet: the value, and nothing where the field is refused.
pub fn field_value(file: &[u8], at: u32, tag: u8) -> &[u8]
    ensures { ValuePart file.entry result at tag }
{
    read_field(file, at, tag).unwrap_or(&[])
}

// The offset behind the field at an offset, where the next one stands.
pub(crate) fn field_end(file: &[u8], at: u32) -> u32
    requires { at ≤ 0x8000_0000 }
    ensures { (result ≡ field_end file.now at) × (result ≤ at + 65538) }
{
    at + (HEADER as u32) + (words::bytes::read_u16(file, (at as usize) + 1) as u32)
}
