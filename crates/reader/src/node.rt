// Reads terms and formulas: one loop over nodes, parent first.
ghost use Rattle.std.specs.Prelude.{◌≡◌, ◌-◌, ◌≤◌, drop};
ghost use Rattle.rules.specs.Reading.{times, node};
ghost use Rattle.reader.specs.Form.{layout_of};
ghost use Rattle.reader.specs.Classes.{Classes};
ghost use Rattle.reader.specs.View.{view};

use crate::class::{Form, Past, code_of};
use crate::name::{fault, skip_names};
use rules::{Fault, Reason};

// How many nodes may still be met.
pub fn room_for(most: usize, used: usize) -> usize
    ensures { result ≡ most - used }
{
    most.saturating_sub(used)
}

// Reads n nodes in a row from `at` on, where `used` were met before. Of the nodes `known`, which are those n and the parts of those met,
// `met` were met here.
pub fn read_row(
    s: &[u8],
    form: Form,
    t: &[u32; 256],
    at: usize,
    used: usize,
    most: usize,
    n: usize,
) -> Result<Past, Fault>
    requires classes { Classes (layout_of form) t.now }
    requires most_bound { (most ≤ 65536) × (n ≤ 524288) }
    ensures { result ≡ view (times (node (layout_of form) most most) n used at (drop at s.now)) }
{
    let room = room_for(most, used);
    let mut next = at;
    let mut met = 0;
    let mut known = n;
    while met < known {
        if s.len() <= next {
            return fault(Reason::EndsInside, next);
        }
        let after = next + 1;
        let code = code_of(form, t, s[next]);
        if room <= met {
            return fault(Reason::OneTooMany, next);
        }
        if code == 0 {
            return fault(Reason::NotListed, next);
        }
        next = skip_names(s, form, t, after, code / 2 % 4)?;
        met += 1;
        known += code / 8;
    }
    Ok(Past {
        next,
        met: used + met,
    })
}
