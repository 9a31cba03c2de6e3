// Reads a rule with its premises: one reader for a rule and one for its row of premises, each calling the other.
// What they hand on are numbers and thin references, and what they hand back is one number: so the last premise of a row is a jump.
ghost use Rattle.std.specs.Prelude.{◌≡◌, ℕ, ◌+◌, ◌≤◌};
ghost use Rattle.rules.specs.Limits.{limits};
ghost use Rattle.rules.specs.Formula.{formulas as formula_layout};
ghost use Rattle.rules.specs.Reading.{many, proof_at};
ghost use Rattle.reader.specs.Classes.{Classes};
ghost use Rattle.proof.specs.Seen.{seen, found, reached_at};
ghost use Rattle.proof.specs.OneNumber.{told as told_by, Far};

use crate::conclusion::read_conclusion;
use crate::one_number::{come_to, fault_at, told};
use crate::reached::{Most, Reached};

// A rule and all its premises, where so many rules and formula nodes were met before it.
// Kept: three numbers and no `Reached`, since they are handed on in registers.
#[cycle(read_premises_read_rule)]
pub fn read_rule(s: &&[u8], t: &[u32; 256], next: usize, rules: usize, formulas: usize) -> usize
    requires classes { Classes formula_layout t.now }
    requires far { Far s.now.now (reached_at next rules formulas) }
    ensures { (depth : ℕ) → limits.rules ≤ rules + depth → told_by result ≡ seen (found (proof_at limits depth) s.now.now (reached_at next rules formulas)) }
{
    let from = Reached {
        next,
        rules,
        formulas,
    };
    match read_conclusion(*s, t, Most::LIMITS, from) {
        Ok(conclusion) => read_premises(s, t, conclusion.reached, conclusion.premises),
        Err(fault) => fault_at(fault),
    }
}

// The premises of a rule, n of them, each by a call of the other reader.
#[cycle(read_premises_read_rule)]
fn read_premises(s: &&[u8], t: &[u32; 256], from: Reached, n: usize) -> usize
    requires classes { Classes formula_layout t.now }
    requires far { Far s.now.now from }
    ensures { (depth : ℕ) → limits.rules ≤ from.rules + depth → told_by result ≡ seen (found (many (proof_at limits depth) n) s.now.now from) }
{
    if n == 0 {
        return come_to(from);
    }
    let mut reached = from;
    for _ in 1..n {
        let r = read_rule(s, t, reached.next, reached.rules, reached.formulas);
        match told(r) {
            Ok(past) => reached = past,
            Err(_) => return r,
        }
    }
    read_rule(s, t, reached.next, reached.rules, reached.formulas)
}
