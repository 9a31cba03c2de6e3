// The row that a rule puts into the draft of a term, once its premises are there.
ghost use Rattle.std.specs.Prelude.{ℕ, ◌+◌, ◌<◌, ◌≤◌, IfSome};
ghost use Rattle.rules.specs.Basic.{Bytes};
ghost use Rattle.rules.specs.Formula.{Formula};
ghost use Rattle.rules.specs.Term.{Term, two, pair};
ghost use Rattle.rules.specs.Extraction.{terms, identity, joined};
ghost use Rattle.draft.specs.Draft.{Drafts};
ghost use Rattle.draft.specs.Made.{most_number, over, made};
ghost use Rattle.proof.specs.Place.{FormulaAt};
ghost use Rattle.proof_draft.specs.Puts.{Open, Put};
ghost use Rattle.proof_draft.specs.Searching.{name_said};

use crate::axiom::Label;
use draft::row::{FIRST_PARTS, NO_ROW, Row, RowKind, put_row};

// How far the first walk has come: the next place, the rows used, the counter, and the part that was made.
#[derive(Clone, Copy)]
pub struct Drafted {
    pub next: usize,
    pub used: usize,
    pub counter: usize,
    pub part: usize,
}

// Puts a row behind the `used` ones, which is the part that was made.
// Kept: the rows and how many are used, since the array has a fixed size (there is no heap) and what is behind is written next.
fn push_row(row: Row, next: usize, rows: &mut [Row], used: usize, counter: usize) -> Drafted
    requires { Open rows.old used × (row.first < used + 2) × (row.second < used + 2) × (row.number < most_number) }
    ensures { (s : Bytes) → (a : Term) → (b : Term) → (n : ℕ) → counter ≤ n + 2
        → Drafts s rows.old used row.first a → Drafts s rows.old used row.second b
        → Put s rows.old rows.new used n next (made s row.kind a b row.number row.stem, counter) result }
{
    put_row(rows, used, row);
    Drafted {
        next,
        used: used + 1,
        counter,
        part: used + FIRST_PARTS,
    }
}

// A name, or Abs of a new name over that name.
pub(crate) fn put_identity(
    name: Option<Label>,
    next: usize,
    rows: &mut [Row],
    used: usize,
    counter: usize,
) -> Drafted
    requires { Open rows.old used × (counter + 2 < most_number) × IfSome name (λ q. q.number < most_number) }
    ensures { (s : Bytes) → Put s rows.old rows.new used counter next (identity terms (name_said s name) counter) result }
{
    match name {
        Some(Label { stem, number }) => {
            let row = Row {
                kind: RowKind::Named,
                number,
                stem,
                ..NO_ROW
            };
            push_row(row, next, rows, used, counter)
        }
        None => {
            let row = Row {
                kind: RowKind::Identity,
                number: counter,
                ..NO_ROW
            };
            push_row(row, next, rows, used, counter + 1)
        }
    }
}

// A row over the part that was made last, or none.
pub(crate) fn put_over(
    kind: Option<RowKind>,
    number: usize,
    next: usize,
    inner: Drafted,
    rows: &mut [Row],
) -> Drafted
    requires { Open rows.old inner.used × (number < most_number) × (inner.part < inner.used + 2) }
    ensures { (s : Bytes) → (t : Term) → Drafts s rows.old inner.used inner.part t
        → Put s rows.old rows.new inner.used inner.counter next (over s kind number t, inner.counter) result }
{
    match kind {
        Some(kind) => {
            let row = Row {
                kind,
                first: inner.part,
                second: inner.part,
                number,
                stem: 0,
            };
            push_row(row, next, rows, inner.used, inner.counter)
        }
        None => Drafted { next, ..inner },
    }
}

// A pair of an earlier part and the one that was made last.
pub fn put_pair(first: usize, second: Drafted, rows: &mut [Row]) -> Drafted
    requires { Open rows.old second.used × (first < second.used + 2) × (second.part < second.used + 2) }
    ensures { (s : Bytes) → (a : Term) → (b : Term) → Drafts s rows.old second.used first a
        → Drafts s rows.old second.used second.part b
        → Put s rows.old rows.new second.used second.counter second.next (two pair a b, second.counter) result }
{
    let row = Row {
        kind: RowKind::Pair,
        first,
        second: second.part,
        ..NO_ROW
    };
    push_row(row, second.next, rows, second.used, second.counter)
}

// The producer and the consumer of a Cut, joined as the formula at `own` says: Tensor by a LetPair and Plus by a Case, of two new names, and else by an App.
pub fn put_cut(
    s: &[u8],
    own: usize,
    producer: Drafted,
    consumer: Drafted,
    rows: &mut [Row],
) -> Drafted
    requires { ((f : Formula) × FormulaAt s.now own f) × (Open rows.old consumer.used × (consumer.counter + 2 < most_number) × (producer.part < consumer.used + 2) × (consumer.part < consumer.used + 2)) }
    ensures { (f : Formula) → (a : Term) → (b : Term) → FormulaAt s.now own f → Drafts s.now rows.old consumer.used producer.part a
        → Drafts s.now rows.old consumer.used consumer.part b
        → Put s.now rows.old rows.new consumer.used consumer.counter consumer.next (joined terms f a b consumer.counter) result }
{
    let binding = Row {
        kind: RowKind::LetPair,
        first: producer.part,
        second: consumer.part,
        number: consumer.counter,
        stem: 0,
    };
    match s[own] {
        3 => push_row(
            binding,
            consumer.next,
            rows,
            consumer.used,
            consumer.counter + 2,
        ),
        8 => {
            let row = Row {
                kind: RowKind::Case,
                ..binding
            };
            push_row(
                row,
                consumer.next,
                rows,
                consumer.used,
                consumer.counter + 2,
            )
        }
        _ => {
            let row = Row {
                kind: RowKind::App,
                first: consumer.part,
                second: producer.part,
                ..NO_ROW
            };
            push_row(row, consumer.next, rows, consumer.used, consumer.counter)
        }
    }
}
