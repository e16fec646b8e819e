// 5, 6 and 7 of tables.
ghost use Rattle.std.specs.Prelude.{◌≡◌, Bool, ℕ, ◌<◌, length, [], ◌∷◌};
ghost use Rattle.model.specs.Answers.{rule_number};
ghost use Rattle.model.specs.Obligations.{owes, first_fault, each};
ghost use Rattle.model.specs.File.{is_good_target, table_rules};
ghost use Rattle.reader.specs.Findings.{fault_in};
ghost use Rattle.writer.specs.Rows.{decoded_at, targets_at};

use crate::tables::Tables;
use crate::{row, target};
use model::{Refusal, Rule};
use reader::layout;

// Each index below n keeps the rule, or the refusal at the first that does not. (The reader's `finding::check_each` says the same, for
// other crates too. This one is the writer's own: wrong programs of its own are planted in it.)
fn check_each<F: Fn(u32) -> bool>(n: u32, rule: Rule, keeps: F) -> Result<(), Refusal>
    requires { (i : ℕ) → i < n → F.pre keeps i }
    ensures { (kept : ℕ → Bool) → ((i : ℕ) (answer : Bool) → i < n → F.post keeps i answer → answer ≡ kept i) → fault_in result ≡ first_fault (each n (λ i. owes (rule_number rule) i (kept i) ∷ [])) }
{
    for i in 0..n {
        if !keeps(i) {
            return Err(rule.at(i));
        }
    }
    Ok(())
}

impl Tables<'_> {
    // The layout, every instruction, and every target in a module of so many instructions.
    pub(crate) fn check(&self) -> Result<(), Refusal>
        ensures { fault_in result ≡ first_fault (table_rules is_good_target self.now.layout (length self.now.instructions.now) (decoded_at self.now.instructions.now) (length self.now.targets.now) (targets_at self.now.targets.now)) }
    {
        let Tables {
            layout,
            instructions,
            targets,
            ..
        } = *self;
        if !layout::is_layout(layout) {
            return Err(Rule::BadLayout.at(0));
        }
        let n = instructions.len() as u32;
        check_each(n, Rule::BadInstruction, |i| {
            row::instruction_of(instructions[i as usize]).is_some()
        })?;
        check_each(targets.len() as u32, Rule::BadTarget, |j| {
            target::is_good_target(n, targets, j as usize)
        })
    }
}
