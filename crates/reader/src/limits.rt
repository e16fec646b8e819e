// What a device asks of a module beside the file's own rules: that it can hold it.
ghost use Rattle.std.specs.Prelude.{◌≡◌};
ghost use Rattle.model.specs.Obligations.{first_fault};
ghost use Rattle.model.specs.Limits.{limit_rules};
ghost use Rattle.reader.specs.Findings.{fault_in};

use model::{Contents, Limits, Refusal, Rule};

// 17, of a module that is read. On its own: within a run it took registers from the loop behind it, and steps took a fifth longer.
#[inline(never)]
pub(crate) fn check(limits: Limits, held: Contents) -> Result<(), Refusal>
    ensures { fault_in result ≡ first_fault (limit_rules limits held.instructions held.targets) }
{
    if limits.instructions < held.instructions || limits.targets < held.targets {
        return Err(Rule::OverPlate.at(0));
    }
    Ok(())
}
