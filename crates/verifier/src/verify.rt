// The public entry: a device's limits and a module's bytes to a verdict.
ghost use Rattle.std.specs.Prelude.{◌≡◌};
ghost use Rattle.model.specs.Obligations.{first_fault};
ghost use Rattle.model.specs.Answers.{judgement_of};
ghost use Rattle.model.specs.Judgement.{verified, judgement};
ghost use Rattle.reader.specs.Findings.{fault_in};
ghost use Rattle.verifier.specs.Standing.{wrapped_region};
ghost use Rattle.reader.specs.Readings.{program};

use crate::rules::{self, Place};
use lookup::{GROUPS, Indexed};
use model::{Layout, Limits, Range, Refusal, Rule, Verdict};
use ranges::{edges, knowledge};
use reader::{decode, read, target};
use words::arithmetic;

// DB to DL; of a layout that rule 5 refuses the end wraps.
pub fn region_of(layout: Layout) -> Range
    ensures { result ≡ wrapped_region layout }
{
    Range {
        low: layout.base,
        high: arithmetic::sum(layout.base, arithmetic::difference(layout.size, 1)),
    }
}

// Rules 8 to 13 over every instruction, upward.
fn check_code(indexed: &Indexed) -> Result<(), Refusal>
    ensures { fault_in result ≡ first_fault (verified (program indexed.now.«module»)) }
{
    let module = &indexed.module;
    let region = region_of(module.layout);
    // What is known, and whether the instruction before goes on to here; "starting with anything".
    let mut known = knowledge::unknown();
    let mut arrives = true;
    let mut here = indexed.number_at(0);
    for i in 0..module.held.instructions {
        // "At a door it takes the claim."
        if let Some(number) = here {
            known = target::claim_in(module.targets, number);
        }
        let instruction = decode::fetch(module.code, i);
        let place = Place {
            within: &*module,
            i,
            arrives,
            marked: here.is_some(),
            instruction,
            named: rules::target_named(indexed, instruction),
            known,
        };
        place.check()?;
        known = edges::after_next(region, instruction, known);
        arrives = rules::falls(instruction);
        here = indexed.number_at((i + 1) as usize);
        if !rules::next_kept(module, arrives, known, here) {
            return Err(Rule::BrokenClaim.at(i));
        }
    }
    Ok(())
}

// A device's verdict on a module's bytes: accepted, with the counts of instructions and targets, or the first of refusals 1 to 7, 17 and
// 8 to 13.
pub fn verify(limits: Limits, file: &[u8]) -> Verdict
    ensures { judgement_of result ≡ judgement limits file.now }
{
    let module = read::load(limits, file)?;
    let mut bits = [0; GROUPS];
    let mut counts = [0; GROUPS];
    check_code(&Indexed::of(module, &mut bits, &mut counts))?;
    Ok(module.held)
}
