// What a device holds: ticket 8 of document 02.
ghost use Rattle.std.specs.Prelude.{◌≡◌, MatchResult};
ghost use Rattle.reference.specs.Parts.{Unheld};
ghost use Rattle.reference.specs.Verdicts.{Within};

use super::answer::{Refusal, Rule};
use super::field::Shape;

// At most so many instructions and doors.
#[derive(Clone, Copy, PartialEq, Eq)]
pub struct Limits {
    pub instructions: u32,
    pub doors: u32,
}

impl Limits {
    // As much as a file can have.
    pub const BOX: Limits = Limits {
        instructions: 4096,
        doors: 256,
    };

    // The weighing plate under the hive.
    pub const PLATE: Limits = Limits {
        instructions: 512,
        doors: 32,
    };

    // Refusal 17, when either limit is passed.
    pub(crate) fn hold(self, shape: Shape) -> Result<(), Refusal>
        ensures { MatchResult result (λ _. Within self shape.n shape.k) (λ e. Unheld self e) }
    {
        let counts = shape.counts();
        if self.instructions < counts.instructions || self.doors < counts.doors {
            return Err(Refusal::at(Rule::OverPlate, 0));
        }
        Ok(())
    }
}
