// What the pair of readers hands back: how far they have come, or a fault.
// Kept: in one number, which comes back in a register; a `Result` from the pair, which call each other and are not inlined, comes back in memory.
ghost use Rattle.std.specs.Prelude.{◌≡◌, ◌<◌, Ok, Err};
ghost use Rattle.proof.specs.OneNumber.{reason_of, told as told_by};

use crate::reached::Reached;
use rules::{Fault, Reason};

// From here on a number is a fault: its place, and below that the number of its reason.
const FAULT: usize = 1 << 63;

// One rule, and one formula node: the next place is below the first.
const RULE: usize = 1 << 16;

const FORMULA: usize = 1 << 32;

// The next place, and above it the rules and the formula nodes met so far.
pub fn come_to(reached: Reached) -> usize
    requires { (reached.next < 65536) × (reached.rules < 65536) × (reached.formulas < 65536) }
    ensures { told_by result ≡ Ok reached }
{
    reached.next + reached.rules * RULE + reached.formulas * FORMULA
}

pub fn fault_at(fault: Fault) -> usize
    requires { fault.place < 65536 }
    ensures { told_by result ≡ Err fault }
{
    FAULT + fault.place * 256 + fault.reason.number() as usize
}

// The reason of a number; of one that is none's, the last.
fn reason_of(number: usize) -> Reason
    ensures { result ≡ reason_of number }
{
    match number {
        1 => Reason::ShortBuffer,
        2 => Reason::InputTooLong,
        3 => Reason::EndsInside,
        4 => Reason::NotListed,
        5 => Reason::BadName,
        6 => Reason::OneTooMany,
        7 => Reason::LeftOver,
        8 => Reason::Outgrows,
        9 => Reason::CounterOver,
        10 => Reason::StoredLength,
        11 => Reason::BlockCheck,
        12 => Reason::BlockHead,
        13 => Reason::UnusedNotZero,
        14 => Reason::NoSuchChild,
        _ => Reason::ReservedWord,
    }
}

// What such a number tells.
pub fn told(r: usize) -> Result<Reached, Fault>
    ensures { result ≡ told_by r }
{
    if r < FAULT {
        return Ok(Reached {
            next: r % RULE,
            rules: r / RULE % RULE,
            formulas: r / FORMULA,
        });
    }
    let at = r - FAULT;
    Err(Fault {
        reason: reason_of(at % 256),
        place: at / 256,
    })
}
