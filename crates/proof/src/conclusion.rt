// Reads what stands before a rule's premises: its tag, what it carries, the formulas of `linear`, and the count of premises.
ghost use Rattle.std.specs.Prelude.{◌≡◌, ◌≤◌, length, Ok, IfSome};
ghost use Rattle.rules.specs.Formula.{formulas as formula_layout};
ghost use Rattle.reader.specs.Classes.{Classes};
ghost use Rattle.proof.specs.Seen.{seen, found, count_seen, within};
ghost use Rattle.proof.specs.Stages.{row_of, index_of, own_of, linear_of, count_of, top_of};

use crate::reached::{Most, Reached};
use crate::tag::{Carries, expect_byte, read_tag};
use reader::class::{Form, code_of};
use reader::name::plain_end;
use reader::node::read_row;
use rules::{Fault, Reason};

// n formulas, one after the other, by reader's exact loop.
fn read_exactly(
    s: &[u8],
    t: &[u32; 256],
    most: Most,
    from: Reached,
    n: usize,
) -> Result<Reached, Fault>
    requires classes { Classes formula_layout t.now }
    requires formulas_bound { (most.formulas ≤ 65536) × (n ≤ 65536) }
    ensures { result ≡ seen (found (row_of (within most) n) s.now from) }
{
    let past = read_row(
        s,
        Form::Formula,
        t,
        from.next,
        from.formulas,
        most.formulas,
        n,
    )?;
    Ok(Reached {
        next: past.next,
        rules: from.rules,
        formulas: past.met,
    })
}

// n formulas, passed in place and with no call: over good nodes whose names are plainly no words. At any other it stops.
// A node's parts take its place in the row, so that no range counts the turns.
fn pass_formulas(s: &[u8], t: &[u32; 256], most: Most, from: Reached, n: usize) -> Option<Reached>
    requires classes { Classes formula_layout t.now }
    requires formulas_bound { (most.formulas ≤ 65536) × (n ≤ 65536) × (from.next ≤ length s.now) }
    ensures { IfSome result (λ row. Ok row ≡ seen (found (row_of (within most) n) s.now from)) }
{
    let mut row = from;
    let mut left = n;
    while 0 < left {
        let after = row.next + 1;
        if s.len() <= after || most.formulas <= row.formulas {
            return None;
        }
        let code = code_of(Form::Formula, t, s[row.next]);
        if code == 0 {
            return None;
        }
        row.next = after;
        if code / 2 % 4 == 1 {
            row.next = plain_end(s, Form::Formula, t, after)?;
        }
        row.formulas += 1;
        left = left - 1 + code / 8;
    }
    Some(row)
}

// n formulas: passed in place, or else read. What is put in place here is put in place in its callers.
#[inline(always)]
fn read_formulas(
    s: &[u8],
    t: &[u32; 256],
    most: Most,
    from: Reached,
    n: usize,
) -> Result<Reached, Fault>
    requires classes { Classes formula_layout t.now }
    requires formulas_bound { (most.formulas ≤ 65536) × (n ≤ 65536) × (from.next ≤ length s.now) }
    ensures { result ≡ seen (found (row_of (within most) n) s.now from) }
{
    match pass_formulas(s, t, most, from, n) {
        Some(row) => Ok(row),
        None => read_exactly(s, t, most, from, n),
    }
}

// An index: two bytes, of any value.
fn read_index(s: &[u8], from: Reached) -> Result<Reached, Fault>
    ensures { result ≡ seen (found index_of s.now from) }
{
    expect_byte(s, from.next)?;
    let high = from.past_byte();
    expect_byte(s, high.next)?;
    Ok(high.past_byte())
}

// A rule's tag, and what it carries.
fn read_own(s: &[u8], t: &[u32; 256], most: Most, from: Reached) -> Result<Reached, Fault>
    requires classes { Classes formula_layout t.now }
    requires formulas_bound { (most.formulas ≤ 65536) × (from.next ≤ length s.now) }
    ensures { result ≡ seen (found (own_of (within most)) s.now from) }
{
    let carries = read_tag(s, from.next, from.rules, most.rules)?;
    let past = from.past_tag();
    match carries {
        Carries::Nothing => Ok(past),
        Carries::Formula => read_formulas(s, t, most, past, 1),
        Carries::Index => read_index(s, past),
    }
}

// The formulas of `linear`, after a byte that counts them.
fn read_linear(s: &[u8], t: &[u32; 256], most: Most, from: Reached) -> Result<Reached, Fault>
    requires classes { Classes formula_layout t.now }
    requires formulas_bound { most.formulas ≤ 65536 }
    ensures { result ≡ seen (found (linear_of (within most)) s.now from) }
{
    expect_byte(s, from.next)?;
    let n = s[from.next] as usize;
    read_formulas(s, t, most, from.past_byte(), n)
}

// Where the premises begin, and how many there are.
#[derive(Clone, Copy, Debug, PartialEq, Eq)]
pub struct Conclusion {
    pub reached: Reached,
    pub premises: usize,
}

// The count of premises.
fn read_count(s: &[u8], from: Reached) -> Result<Conclusion, Fault>
    ensures { result ≡ count_seen (λ n. n) (found count_of s.now from) }
{
    expect_byte(s, from.next)?;
    let premises = s[from.next] as usize;
    if 3 < premises {
        return Err(Fault {
            reason: Reason::NotListed,
            place: from.next,
        });
    }
    Ok(Conclusion {
        reached: from.past_byte(),
        premises,
    })
}

// All that stands before the premises.
pub fn read_conclusion(
    s: &[u8],
    t: &[u32; 256],
    most: Most,
    from: Reached,
) -> Result<Conclusion, Fault>
    requires classes { Classes formula_layout t.now }
    requires formulas_bound { (most.formulas ≤ 65536) × (from.next ≤ length s.now) }
    ensures { result ≡ count_seen (λ x. x.premises) (found (top_of (within most)) s.now from) }
{
    let own = read_own(s, t, most, from)?;
    let linear = read_linear(s, t, most, own)?;
    read_count(s, linear)
}
