// The calls, each on the fields of a record. Each tells its answer in 16 numbers, as C is told it.
use crate::call::Call;
use crate::record::{Record, number};
use crate::with_row::with_row;
use entry::tell::{tell, tell_extraction, tell_refusal, tell_verdict};
use entry::tell_steps::{tell_reduced, tell_step};
use rules::Kind;
use term::child;

pub fn ask(call: Call, record: &Record, out: &mut [u8], scratch: &mut [u8], told: &mut [u64; 16]) {
    let input = record.first;
    let n = number(record.numbers, 0);
    match call {
        Call::CheckTerm => tell(reader::check_term(input), told),
        Call::CheckFormula => tell(reader::check_formula(input), told),
        Call::CheckProof => tell(proof::check_proof(input), told),
        Call::IsNormal => tell_verdict(step::is_normal(input), told),
        Call::IsStraight => tell_verdict(straight::is_straight(input), told),
        Call::ChildFault => tell_child_fault(record, told),
        Call::Child => told[3] = child_part(record).len() as u64,
        Call::FreeVars => tell(free::free_vars(input, out), told),
        Call::TermText => tell(term_text::pretty(input, out), told),
        Call::FormulaText => tell(formula_text::pretty(input, out), told),
        Call::StoreTerm => tell(stored::store(Kind::Term, input, out), told),
        Call::StoreProof => tell(stored::store(Kind::Proof, input, out), told),
        Call::LoadTerm => tell(stored::load(Kind::Term, input, out), told),
        Call::LoadProof => tell(stored::load(Kind::Proof, input, out), told),
        Call::Substitute => tell_substitute(record, out, scratch, told),
        Call::Step => tell_step(step::step(input, out, scratch), told),
        Call::NormalizeBounded => {
            tell_reduced(reduction::normalize_bounded(input, n, out, scratch), told)
        }
        Call::Extract => tell_extraction(extract::extract(n, input, out, scratch), told),
        Call::Extractor => with_row(record, out, scratch, told),
    }
}

fn tell_substitute(record: &Record, out: &mut [u8], scratch: &mut [u8], told: &mut [u64; 16]) {
    let answer = substitution::substitute(record.first, record.second, record.third, out, scratch);
    tell(answer, told);
}

// Which child of the term is asked for.
fn child_number(record: &Record) -> usize {
    number(record.numbers, 0) as usize
}

// Zeros stand for no fault.
fn tell_child_fault(record: &Record, told: &mut [u64; 16]) {
    *told = [0; 16];
    if let Some(r) = child::child_fault(record.first, child_number(record)) {
        tell_refusal(r, told);
    }
}

// The part of the term that is the child. It is handed back, so it is what the record wants as the output.
pub fn child_part<'a>(record: &Record<'a>) -> &'a [u8] {
    child::child(record.first, child_number(record))
}
