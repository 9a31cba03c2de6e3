// The calls by their numbers in the list, in the order of their shapes; and by name, as they are printed.
use std::fmt;

#[derive(Clone, Copy, Debug, PartialEq, Eq)]
pub enum Call {
    CheckTerm = 1,
    CheckFormula,
    CheckProof,
    IsNormal,
    IsStraight,
    ChildFault,
    Child,
    FreeVars,
    TermText,
    FormulaText,
    StoreTerm,
    StoreProof,
    LoadTerm,
    LoadProof,
    Substitute,
    Step,
    NormalizeBounded,
    Extract,
    Extractor,
}

// In the order of their numbers.
pub const CALLS: [Call; 19] = [
    Call::CheckTerm,
    Call::CheckFormula,
    Call::CheckProof,
    Call::IsNormal,
    Call::IsStraight,
    Call::ChildFault,
    Call::Child,
    Call::FreeVars,
    Call::TermText,
    Call::FormulaText,
    Call::StoreTerm,
    Call::StoreProof,
    Call::LoadTerm,
    Call::LoadProof,
    Call::Substitute,
    Call::Step,
    Call::NormalizeBounded,
    Call::Extract,
    Call::Extractor,
];

// A number that is no call's.
#[derive(Clone, Copy, Debug, PartialEq, Eq)]
pub struct NoCall(pub u8);

impl TryFrom<u8> for Call {
    type Error = NoCall;

    fn try_from(number: u8) -> Result<Self, NoCall> {
        for call in CALLS {
            if call as u8 == number {
                return Ok(call);
            }
        }
        Err(NoCall(number))
    }
}

impl fmt::Display for Call {
    fn fmt<W: fmt::Write>(&self, f: &mut fmt::Formatter<W>) -> fmt::Result {
        f.write_str(match self {
            Call::CheckTerm => "reader::check_term",
            Call::CheckFormula => "reader::check_formula",
            Call::CheckProof => "proof::check_proof",
            Call::IsNormal => "step::is_normal",
            Call::IsStraight => "straight::is_straight",
            Call::ChildFault => "term::child::child_fault",
            Call::Child => "term::child::child",
            Call::FreeVars => "free::free_vars",
            Call::TermText => "term_text::pretty",
            Call::FormulaText => "formula_text::pretty",
            Call::StoreTerm => "stored::store of a term",
            Call::StoreProof => "stored::store of a proof",
            Call::LoadTerm => "stored::load of a term",
            Call::LoadProof => "stored::load of a proof",
            Call::Substitute => "substitution::substitute",
            Call::Step => "step::step",
            Call::NormalizeBounded => "reduction::normalize_bounded",
            Call::Extract => "extract::extract",
            Call::Extractor => "extract::extractor::Extractor::extract, two by each Extractor",
        })
    }
}
