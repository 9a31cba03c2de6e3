// From a checked proof to a draft of its term: one walk over its rules, with the row of cut entries that is lent and a counter.
ghost use Rattle.std.specs.Prelude.{◌≡◌, List, ℕ};
ghost use Rattle.rules.specs.Basic.{Bytes};
ghost use Rattle.draft.specs.declared.row.Row.{Row};
ghost use Rattle.proof_draft.specs.declared.entry.CutEntry.{CutEntry};
ghost use Rattle.proof_draft.specs.declared.plan.Act.TheVariants.{Leaf, Bare, Axiom, Cut};
ghost use Rattle.proof_draft.specs.Planning.{Planned};
ghost use Rattle.proof_draft.specs.Walk.{Starts, Ends};

use crate::axiom::axiom_name;
use crate::entry::CutEntry;
use crate::plan::{Act, Plan, plan_at};
use crate::put::{Drafted, put_cut, put_identity, put_over, put_pair};
use draft::row::{Row, RowKind, UNIT};
use proof::rule::skip_proofs;
use std::mem;

// A part with which a draft begins.
fn take_leaf(s: &[u8], plan: Plan, part: usize, used: usize, counter: usize) -> Drafted
    requires { (plan.act ≡ Leaf part) × ((at : ℕ) × (row : List CutEntry) × (k : ℕ) × (ws : List Row) × Planned s.now at plan × Starts s.now at row k ws used counter) }
    ensures { (at : ℕ) → (row : List CutEntry) → (k : ℕ) → (ws : List Row) → Planned s.now at plan
        → Starts s.now at row k ws used counter → Ends s.now at row k ws ws used counter result }
{
    Drafted {
        next: skip_proofs(s, plan.first, plan.premises),
        used,
        counter,
        part,
    }
}

// A row over Unit.
fn draft_bare(plan: Plan, kind: RowKind, rows: &mut [Row], used: usize, counter: usize) -> Drafted
    requires { (plan.act ≡ Bare kind) × ((s : Bytes) × (at : ℕ) × (row : List CutEntry) × (k : ℕ) × Planned s at plan × Starts s at row k rows.old used counter) }
    ensures { (s : Bytes) → (at : ℕ) → (row : List CutEntry) → (k : ℕ) → Planned s at plan → Starts s at row k rows.old used counter
        → Ends s at row k rows.old rows.new used counter result }
{
    let unit = Drafted {
        next: plan.first,
        used,
        counter,
        part: UNIT,
    };
    put_over(Some(kind), 0, plan.first, unit, rows)
}

// The name that an Axiom takes.
fn draft_axiom(
    s: &[u8],
    plan: Plan,
    row: &[CutEntry],
    k: usize,
    rows: &mut [Row],
    used: usize,
    counter: usize,
) -> Drafted
    requires { (plan.act ≡ Axiom) × ((at : ℕ) × Planned s.now at plan × Starts s.now at row.now k rows.old used counter) }
    ensures { (at : ℕ) → Planned s.now at plan → Starts s.now at row.now k rows.old used counter
        → Ends s.now at row.now k rows.old rows.new used counter result }
{
    let name = axiom_name(s, plan.linear, &row[..k]);
    let next = skip_proofs(s, plan.first, plan.premises);
    put_identity(name, next, rows, used, counter)
}

// The rule at `at`, with its premises.
#[cycle(draft_cut_draft_rule)]
pub fn draft_rule(
    s: &[u8],
    at: usize,
    row: &mut [CutEntry],
    k: usize,
    rows: &mut [Row],
    used: usize,
    counter: usize,
) -> Drafted
    requires { Starts s.now at row.old k rows.old used counter }
    ensures { (row.new ≡ row.old) × Ends s.now at row.old k rows.old rows.new used counter result }
{
    let plan = plan_at(s, at);
    match plan.act {
        Act::Leaf(part) => take_leaf(s, plan, part, used, counter),
        Act::Bare(kind) => draft_bare(plan, kind, rows, used, counter),
        Act::Axiom => draft_axiom(s, plan, row, k, rows, used, counter),
        Act::First { over, names } => {
            let one = draft_rule(s, plan.first, row, k, rows, used, counter + names);
            let next = skip_proofs(s, one.next, plan.premises - 1);
            put_over(over, counter, next, one, rows)
        }
        Act::Pair => {
            let one = draft_rule(s, plan.first, row, k, rows, used, counter);
            let two = draft_rule(s, one.next, row, k, rows, one.used, one.counter);
            put_pair(one.part, two, rows)
        }
        Act::Cut => draft_cut(s, at, plan, row, k, rows, used, counter),
    }
}

// A Cut: the consumer's proof has one entry more, behind the first k; what stood there is put back.
#[cycle(draft_cut_draft_rule)]
fn draft_cut(
    s: &[u8],
    at: usize,
    plan: Plan,
    row: &mut [CutEntry],
    k: usize,
    rows: &mut [Row],
    used: usize,
    counter: usize,
) -> Drafted
    requires { (plan.act ≡ Cut) × Planned s.now at plan × Starts s.now at row.old k rows.old used counter }
    ensures { (row.new ≡ row.old) × Ends s.now at row.old k rows.old rows.new used counter result }
{
    let own = at + 1;
    let one = draft_rule(s, plan.first, row, k, rows, used, counter + 1);
    let entry = CutEntry {
        place: own,
        counter: counter as u32,
    };
    let before = mem::replace(&mut row[k], entry);
    let two = draft_rule(s, one.next, row, k + 1, rows, one.used, one.counter);
    row[k] = before;
    put_cut(s, own, one, two, rows)
}
