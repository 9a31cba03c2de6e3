// An Extractor, and the row of cut entries that it is lent. Both stand in this one function.
ghost use Rattle.std.specs.Prelude.{◌≡◌, ◌≤◌, length};

use crate::record::{Record, number};
use extract::extractor::Extractor;
use proof_draft::entry::CutEntry;
use rules::Refusal;

pub const ROW_ROOM: usize = 600;

// What the row is filled with: no zeros, so that "as they were" and "zeros" can be told apart.
pub const FULL: CutEntry = CutEntry {
    place: 7,
    counter: 9,
};

// What an extraction answered, and the counter after it.
#[derive(Clone, Copy)]
pub struct Extracted {
    pub answer: Result<usize, Refusal>,
    pub counter: u32,
}

// Two extractions, one after the other, and the row after both.
#[derive(Clone, Copy)]
pub struct Twice {
    pub first: Extracted,
    pub second: Extracted,
    pub row: [CutEntry; ROW_ROOM],
}

// The record's two proofs by one Extractor that starts at its counter. Of a longer row, with no zeros in it, so many entries are lent.
pub fn extract_in_row(room: usize, record: &Record, out: &mut [u8], scratch: &mut [u8]) -> Twice
    requires { room ≤ 600 }
    ensures { length result.row ≡ 600 }
{
    let mut row = [FULL; ROW_ROOM];
    let mut extractor = Extractor::new(number(record.numbers, 0));
    let answer = extractor.extract(record.first, &mut row[..room], out, scratch);
    let first = Extracted {
        answer,
        counter: extractor.counter,
    };
    let again = extractor.extract(record.second, &mut row[..room], out, scratch);
    let second = Extracted {
        answer: again,
        counter: extractor.counter,
    };
    Twice { first, second, row }
}
