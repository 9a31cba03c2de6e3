// What the program patchrun prints for a stored term: its text when reduced, and the counts; or the refusal.
ghost use Rattle.std.specs.Prelude.{◌≡◌, ◌≤◌, length, take};
ghost use Rattle.std.proofs.Math.Option.{some};
ghost use Rattle.rules.specs.Limits.{limits, output_room, scratch_room};
ghost use Rattle.rules.specs.Buffers.{filled};
ghost use Rattle.rules.specs.Calls.{reduce_call};
ghost use Rattle.rules.specs.Program.{patchrun, program_steps};
ghost use Rattle.program.specs.Starts.{Starts};
ghost use Rattle.program.specs.Printing.{printed_room, printed_for, term_left, scratch_left};

use crate::line::{put_counts, put_refusal};
use buffer::run;
use reduction::normalize_bounded;
use rules::{Kind, OUTPUT_ROOM, PROGRAM_STEPS, SCRATCH_ROOM, TEXT_ROOM};
use term_text::pretty;

// A term's text, and the line of the counts.
pub const PRINTED_ROOM: usize = TEXT_ROOM + 512;

// What is printed for the bytes of a term, which stand at the start of out. What reduction leaves can be read, so pretty does not refuse it.
fn print_reduced(n: usize, term: &mut [u8], scratch: &mut [u8], out: &mut [u8]) -> usize
    requires { (n ≤ length out.old) × (output_room limits ≤ length term.old) × (scratch_room limits ≤ length scratch.old) × (printed_room limits ≤ length out.old) }
    ensures starts { Starts out.new (printed_for limits (take n out.old)) result }
    ensures term_after { term.new ≡ (reduce_call limits (take n out.old) program_steps term.old scratch.old).output }
    ensures scratch_after { scratch.new ≡ (reduce_call limits (take n out.old) program_steps term.old scratch.old).scratch }
{
    match normalize_bounded(&out[..n], PROGRAM_STEPS, term, scratch) {
        Err(unreduced) => put_refusal(unreduced.refusal, out, 0),
        Ok(told) => {
            let end = told.length;
            match pretty(&term[..end], out) {
                Err(_) => 0,
                Ok(past) => {
                    out[past] = 10;
                    put_counts(told.steps, told.counts, told.normal, out, past + 1)
                }
            }
        }
    }
}

// What is printed for a file. The content of a file that opens stands in out until it is reduced.
fn print_file(file: &[u8], term: &mut [u8], scratch: &mut [u8], out: &mut [u8]) -> usize
    requires { (output_room limits ≤ length term.old) × (scratch_room limits ≤ length scratch.old) × (printed_room limits ≤ length out.old) }
    ensures starts { Starts out.new (patchrun limits file.now) result }
    ensures term_after { term.new ≡ term_left limits file.now term.old scratch.old }
    ensures scratch_after { scratch.new ≡ scratch_left limits file.now term.old scratch.old }
{
    match stored::load(Kind::Term, file, out) {
        Err(r) => put_refusal(r, out, 0),
        Ok(n) => print_reduced(n, term, scratch, out),
    }
}

// What is printed for a file, then zeros; and how long it is. The arrays' lengths are part of their types, so none is ever too short.
pub fn printed(
    file: &[u8],
    term: &mut [u8; OUTPUT_ROOM],
    scratch: &mut [u8; SCRATCH_ROOM],
    out: &mut [u8; PRINTED_ROOM],
) -> usize
    ensures value { result ≡ length (patchrun limits file.now) }
    ensures out_after { out.new ≡ filled out.old (some (patchrun limits file.now)) }
    ensures term_after { term.new ≡ term_left limits file.now term.old scratch.old }
    ensures scratch_after { scratch.new ≡ scratch_left limits file.now term.old scratch.old }
{
    let end = print_file(file, term, scratch, out);
    run::clear(out, end);
    end
}
