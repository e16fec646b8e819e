// Places: where a step goes, or how it ends the run. A place is a `usize`: an answer of eight bytes would be packed into one integer,
// and taken out of it at every step.
ghost use Rattle.std.specs.Prelude.{◌≡◌};
ghost use Rattle.model.specs.Program.{is_target, is_indirect};
ghost use Rattle.machine.specs.Core.{onward_of, jump_of, jump_via_of};
ghost use Rattle.reader.specs.Readings.{program};

use lookup::Indexed;
use model::Ending;
use reader::module::Module;
use reader::target;

// "Other steps go to the next index, and stray if that is n."
pub(crate) fn onward(m: &Module, pc: usize) -> Result<usize, Ending>
    ensures { result ≡ onward_of (program m.now) pc }
{
    let last = (m.held.instructions - 1) as usize;
    if pc < last {
        Ok(pc + 1)
    } else {
        Err(Ending::Violated)
    }
}

fn is_target(indexed: &Indexed, to: usize) -> bool
    ensures { result ≡ is_target (program indexed.now.«module»).targets to }
{
    indexed.number_at(to).is_some()
}

pub(crate) fn is_indirect(indexed: &Indexed, to: usize) -> bool
    ensures { result ≡ is_indirect (program indexed.now.«module»).targets to }
{
    indexed
        .number_at(to)
        .is_some_and(|j| target::is_indirect(indexed.module.targets, j))
}

// "A jump or taken branch goes to a door, else it strays." This and the next are two sentences of document 01, a line each.
#[tactic(auto, unfolding(crate::specs::Core::jump_of))]
pub(crate) fn jump(indexed: &Indexed, to: usize) -> Result<usize, Ending>
    ensures { result ≡ jump_of (program indexed.now.«module») to }
{
    is_target(indexed, to).then_some(to).ok_or(Ending::Violated)
}

// "A jumpr goes to an open door, else it strays."
#[tactic(auto, unfolding(crate::specs::Core::jump_via_of))]
pub(crate) fn jump_via(indexed: &Indexed, to: usize) -> Result<usize, Ending>
    ensures { result ≡ jump_via_of (program indexed.now.«module») to }
{
    is_indirect(indexed, to)
        .then_some(to)
        .ok_or(Ending::Violated)
}
