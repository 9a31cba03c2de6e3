// How far a reading of a proof has come, and what is told of the whole input where its first rule ends.
ghost use Rattle.std.specs.Prelude.{◌≡◌, ◌+◌, ◌^◌, ◌<◌};
ghost use Rattle.proof.specs.Seen.{reached_past_byte, reached_past_tag, end_of};

use reader::refused;
use rules::{MOST_FORMULA_NODES, MOST_RULES, Reason, Refusal};

// How far a reading has come: the next place, and the rules and formula nodes met so far.
#[derive(Clone, Copy, Debug, PartialEq, Eq)]
pub struct Reached {
    pub next: usize,
    pub rules: usize,
    pub formulas: usize,
}

impl Reached {
    // The place after a byte.
    pub fn past_byte(self) -> Reached
        requires { self.next + 1 < 2 ^ 64 }
        ensures { result ≡ reached_past_byte self }
    {
        Reached {
            next: self.next + 1,
            ..self
        }
    }

    // The place after a rule's tag, where one rule more was met.
    pub fn past_tag(self) -> Reached
        requires { (self.next + 1 < 2 ^ 64) × (self.rules + 1 < 2 ^ 64) }
        ensures { result ≡ reached_past_tag self }
    {
        Reached {
            next: self.next + 1,
            rules: self.rules + 1,
            ..self
        }
    }

    // What is told of an input of so many bytes, where its first rule ends here.
    pub fn at_end(self, length: usize, input: u8) -> Result<usize, Refusal>
        ensures { result ≡ end_of self length input }
    {
        if self.next < length {
            return refused(Reason::LeftOver, self.next, input);
        }
        Ok(self.rules)
    }
}

// How many rules and formula nodes a proof may have.
// Kept: a parameter of `read_conclusion`, which is public and reads by any limits.
#[derive(Clone, Copy, Debug, PartialEq, Eq)]
pub struct Most {
    pub rules: usize,
    pub formulas: usize,
}

impl Most {
    pub const LIMITS: Most = Most {
        rules: MOST_RULES,
        formulas: MOST_FORMULA_NODES,
    };
}
