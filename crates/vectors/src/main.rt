// Replays a list of answers on every public call, and says of each call how many records there were and how many were right.
// The list (stdin) is printed by `make vectors`: the answers are the Rust's own, and of refusals those of the model of the rules.
// A call more is a number and a name in call, an arm in calls, and its answer where host/cases prints the list.
#![tactic(auto)]

use call::CALLS;
use program::input::read_full;
use record::split_record;
use replay::is_right;
use std::fmt::Display;
use std::io;
use std::io::Write;

mod call;
mod calls;
mod in_row;
mod lent;
mod record;
mod replay;
mod with_row;

// So many records are replayed, and counted, at most.
const MOST_RECORDS: u64 = 65536;

// How many records there were, and how many were right.
#[derive(Clone, Copy)]
struct Tally {
    records: u64,
    right: u64,
}

// One for all calls, and one for each.
type Tallies = [Tally; 20];

fn count(tallies: &mut Tallies, number: u8, right: bool) {
    if let Some(tally) = tallies.get_mut(usize::from(number)) {
        tally.records = MOST_RECORDS.min(tally.records.saturating_add(1));
        if right {
            tally.right = MOST_RECORDS.min(tally.right.saturating_add(1));
        }
    }
}

fn replay_all(list: &[u8], out: &mut [u8], scratch: &mut [u8], tallies: &mut Tallies) {
    let mut rest = list;
    for _ in 0..MOST_RECORDS {
        match split_record(rest) {
            Some((record, behind)) => {
                let right = is_right(&record, out, scratch);
                count(tallies, 0, right);
                count(tallies, record.call, right);
                rest = behind;
            }
            None => return,
        }
    }
}

fn print_line<W: Write>(out: &mut W, name: &impl Display, tally: Tally) -> io::Result<()> {
    let records = tally.records;
    let right = tally.right;
    writeln!(out, "{name}: {right} of {records} right")
}

fn print_all<W: Write>(out: &mut W, tallies: &Tallies) -> io::Result<()> {
    print_line(out, &"all calls", tallies[0])?;
    for call in CALLS {
        print_line(out, &call, tallies[call as usize])?;
    }
    Ok(())
}

fn replay_and_print<W: Write>(printed: &mut W, list: &[u8]) -> io::Result<()> {
    // More than any call asks for.
    let mut out = [0u8; 20992];
    let mut scratch = [0u8; 8448];
    let mut tallies = [Tally {
        records: 0,
        right: 0,
    }; 20];
    replay_all(list, &mut out, &mut scratch, &mut tallies);
    print_all(printed, &tallies)
}

fn main(rt: HostRuntime) -> io::Result<()> {
    let mut list = [0u8; 300000];
    let n = read_full(&mut rt.reader(), &mut list)?;
    replay_and_print(&mut io::writer(&rt), &list[..n])
}
