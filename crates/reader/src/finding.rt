// Judging by a rule that is asked of every index.
ghost use Rattle.std.specs.Prelude.{◌≡◌, Bool, ℕ, ◌<◌, [], ◌∷◌};
ghost use Rattle.model.specs.Answers.{rule_number};
ghost use Rattle.model.specs.Obligations.{owes, first_fault, each};
ghost use Rattle.reader.specs.Findings.{fault_in};

use model::{Refusal, Rule};

// Each index below n keeps the rule, or the refusal at the first that does not.
pub fn check_each<F: Fn(u32) -> bool>(n: u32, rule: Rule, keeps: F) -> Result<(), Refusal>
    requires { (i : ℕ) → i < n → F.pre keeps i }
    ensures { (kept : ℕ → Bool) → ((i : ℕ) (answer : Bool) → i < n → F.post keeps i answer → answer ≡ kept i) → fault_in result ≡ first_fault (each n (λ i. owes (rule_number rule) i (kept i) ∷ [])) }
{
    for i in 0..n {
        if !keeps(i) {
            return Err(rule.at(i));
        }
    }
    Ok(())
}
