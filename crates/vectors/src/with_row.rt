// The shape of a call that is lent a row of cut entries: two proofs by one Extractor, one after the other, over one output and one scratch.
ghost use Rattle.std.specs.Prelude.{◌≤◌};

use crate::in_row::{FULL, ROW_ROOM, Twice, extract_in_row};
use crate::record::{Record, number};
use entry::tell::tell;
use proof_draft::entry::CutEntry;

// What is left in the lent entries of the row, by its number in the list. None are lent of a row of no entries.
#[derive(Clone, Copy, Debug, PartialEq, Eq)]
enum RowLeft {
    NoneLent,
    AsItWas,
    Zeros,
    Other,
}

fn all_are(entries: &[CutEntry], wanted: CutEntry) -> bool {
    entries.iter().all(|entry| entry.place == wanted.place && entry.counter == wanted.counter)
}

impl RowLeft {
    // What the first entries are; those behind them were not lent, and are as they were.
    fn of(row: &[CutEntry], room: usize) -> RowLeft {
        let zero = CutEntry {
            place: 0,
            counter: 0,
        };
        match row.split_at_checked(room) {
            Some((lent, rest)) if all_are(rest, FULL) => {
                if lent.is_empty() {
                    RowLeft::NoneLent
                } else if all_are(lent, FULL) {
                    RowLeft::AsItWas
                } else if all_are(lent, zero) {
                    RowLeft::Zeros
                } else {
                    RowLeft::Other
                }
            }
            _ => RowLeft::Other,
        }
    }
}

// Both answers, each with the counter after it, and what the row is.
fn tell_twice(both: &Twice, room: usize, told: &mut [u64; 16]) {
    let mut first = [0u64; 16];
    tell(both.first.answer, &mut first);
    let mut second = [0u64; 16];
    tell(both.second.answer, &mut second);
    told[..4].copy_from_slice(&first[..4]);
    told[4] = u64::from(both.first.counter);
    told[5..9].copy_from_slice(&second[..4]);
    told[9] = u64::from(both.second.counter);
    told[10] = RowLeft::of(&both.row, room) as u64;
}

pub fn with_row(record: &Record, out: &mut [u8], scratch: &mut [u8], told: &mut [u64; 16]) {
    let room = number(record.numbers, 3) as usize;
    if room <= ROW_ROOM {
        let both = extract_in_row(room, record, out, scratch);
        tell_twice(&both, room, told);
    }
}
