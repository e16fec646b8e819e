// Rules 8 to 13 at one index, each with its number and under the model's name. What an instruction's edges are, others may ask too:
// whether it goes on, and the target that it names.
ghost use Rattle.std.specs.Prelude.{◌≡◌, ℕ, ◌+◌, eqb, option_and_then};
ghost use Rattle.std.proofs.Props.{props};
ghost use Rattle.model.specs.Quantifiers.{any_of};
ghost use Rattle.model.specs.Obligations.{first_fault};
ghost use Rattle.model.specs.Ranges.{lies_within};
ghost use Rattle.model.specs.Program.{target_at};
ghost use Rattle.model.specs.File.{claim_in};
ghost use Rattle.model.specs.Instructions.{shape, traits};
ghost use Rattle.model.specs.Judgement.{traits_at, next_ranges, checked_before, is_reachable, is_checked, is_contained, access_contained, jumps_to_target, stays_inside, taken_kept, next_kept, before_next};
ghost use Rattle.reader.specs.Findings.{fault_in};
ghost use Rattle.model.specs.Lookup.{number_at};
ghost use Rattle.lookup.specs.Found.{target_found};
ghost use Rattle.verifier.specs.Standing.{Standing};
ghost use Rattle.reader.specs.Readings.{program};

use lookup::Indexed;
use model::{Instruction, Range, Ranges, Refusal, Rule, Width};
use ranges::{edges, knowledge, sums};
use reader::module::Module;
use reader::{decode, target};

// The instruction can go on to the next index.
#[tactic(auto, unfolding(model::specs::Instructions::shape))]
pub fn falls(instruction: Instruction) -> bool
    ensures { result ≡ (traits (shape instruction)).falls }
{
    !matches!(
        instruction,
        Instruction::Halt | Instruction::Jump { .. } | Instruction::Jumpr { .. }
    )
}

// The number of the target that the instruction names, as a jump and a branch do.
#[tactic(auto, unfolding(model::specs::Instructions::shape))]
pub fn target_named(indexed: &Indexed, instruction: Instruction) -> Option<u32>
    ensures { result ≡ option_and_then (number_at (program indexed.now.«module»).targets) (traits (shape instruction)).names }
{
    match instruction {
        Instruction::Jump { to } | Instruction::Branch { to, .. } => indexed.number_at(to),
        _ => None,
    }
}

// An access through a pointer of range x stays in the region and its guard zones, by exact sums.
fn is_contained(module: &Module, x: Range, width: Width, imm: i32) -> bool
    ensures { result ≡ is_contained «module».now.layout x width imm }
{
    let lowest = sums::displaced_end(x.low, imm);
    let highest = sums::displaced_end(x.high, imm) + sums::last_byte(width) as u64;
    let base = module.layout.base as u64;
    let size = module.layout.size as u64;
    let guard = module.layout.guard as u64;
    sums::WORDS + base - guard <= lowest && highest <= sums::WORDS + base + size - 1 + guard
}

// The ranges lie within the claim of the target of the number.
fn meets_claim(targets: &[u8], number: u32, ranges: Ranges) -> bool
    ensures { result ≡ lies_within ranges (claim_in targets.now number) }
{
    knowledge::lies_within(ranges, target::claim_in(targets, number))
}

// 11 on the edge to the next index, where a target stands or not.
pub(crate) fn next_kept(module: &Module, falls: bool, next: Ranges, there: Option<u32>) -> bool
    ensures { (i : ℕ) → falls ≡ (traits_at (program «module».now) i).falls → next ≡ next_ranges (program «module».now) i → target_found «module».now.targets.now there ≡ target_at (program «module».now).targets (i + 1) → result ≡ next_kept (program «module».now) i }
{
    !falls || there.is_none_or(|number| meets_claim(module.targets, number, next))
}

// What stands at an index, which is what its rules are asked of: whether the instruction before goes on to here, whether here is a
// target, the instruction, the number of the target that it names, and what is known before it.
#[derive(Clone, Copy)]
pub(crate) struct Place<'a> {
    pub within: &'a Module<'a>,
    pub i: u32,
    pub arrives: bool,
    pub marked: bool,
    pub instruction: Instruction,
    pub named: Option<u32>,
    pub known: Ranges,
    pub ghost standing: { Standing within.now i arrives marked instruction named known } by { Prim.hlevel props },
}

impl Place<'_> {
    // 12: the instruction before goes on to here, or here is a target.
    fn is_reachable(&self) -> bool
        ensures { result ≡ is_reachable (program self.now.within.now) self.now.i }
    {
        self.arrives || self.marked
    }

    // The instruction before is a check of the register.
    #[tactic(auto, using(crate::proofs::ByRule::looks_before), unfolding(model::specs::Instructions::shape))]
    fn checked_before(&self, a: u8) -> bool
        ensures { result ≡ any_of (checked_before (program self.now.within.now) self.now.i) (eqb a) }
    {
        if self.i == 0 {
            return false;
        }
        match decode::fetch(self.within.code, self.i - 1) {
            Instruction::Check { a: looked_at } => a == looked_at,
            _ => false,
        }
    }

    // 9: a jumpr is no target, and a check of its register stands before it.
    fn is_checked(&self) -> bool
        ensures { result ≡ is_checked (program self.now.within.now) self.now.i }
    {
        match self.instruction {
            Instruction::Jumpr { a } => !self.marked && self.checked_before(a),
            _ => true,
        }
    }

    // 10: a load's or store's access is contained.
    fn access_contained(&self) -> bool
        ensures { result ≡ access_contained (program self.now.within.now) self.now.i }
    {
        match self.instruction {
            Instruction::Load { b, width, imm, .. } => is_contained(
                self.within,
                knowledge::range_of(self.known, b),
                model::width_read(width),
                imm,
            ),
            Instruction::Store { b, width, imm, .. } => {
                is_contained(self.within, knowledge::range_of(self.known, b), width, imm)
            }
            _ => true,
        }
    }

    // 8: what a jump or branch names is a target.
    fn jumps_to_target(&self) -> bool
        ensures { result ≡ jumps_to_target (program self.now.within.now) self.now.i }
    {
        match self.instruction {
            Instruction::Jump { .. } | Instruction::Branch { .. } => self.named.is_some(),
            _ => true,
        }
    }

    // 13: the last instruction does not go on.
    fn stays_inside(&self) -> bool
        ensures { result ≡ stays_inside (program self.now.within.now) self.now.i }
    {
        !(falls(self.instruction) && self.i + 1 == self.within.held.instructions)
    }

    // 11 on the edge that a jump or branch takes to a target.
    fn taken_kept(&self) -> bool
        ensures { result ≡ taken_kept (program self.now.within.now) self.now.i }
    {
        match self.named {
            Some(number) => {
                let taken = edges::after_taken(self.instruction, self.known);
                meets_claim(self.within.targets, number, taken)
            }
            None => true,
        }
    }

    // The rules at the index, "12, 9, 10, 8, 13, 11", but for 11 on the edge to the next index.
    #[tactic(auto, unfolding(model::specs::Judgement::before_next, model::specs::Obligations::first_fault, reader::specs::Findings::fault_in, model::specs::Answers::fault_of, model::specs::Answers::rule_number))]
    pub(crate) fn check(&self) -> Result<(), Refusal>
        ensures { fault_in result ≡ first_fault (before_next (program self.now.within.now) self.now.i) }
    {
        if !self.is_reachable() {
            return Err(Rule::Unreachable.at(self.i));
        }
        if !self.is_checked() {
            return Err(Rule::UncheckedJump.at(self.i));
        }
        if !self.access_contained() {
            return Err(Rule::WildAccess.at(self.i));
        }
        if !self.jumps_to_target() {
            return Err(Rule::NoTarget.at(self.i));
        }
        if !self.stays_inside() {
            return Err(Rule::FallsOff.at(self.i));
        }
        if !self.taken_kept() {
            return Err(Rule::BrokenClaim.at(self.i));
        }
        Ok(())
    }
}
