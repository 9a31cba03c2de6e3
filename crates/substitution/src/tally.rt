// What a splice has moved so far. Only this module reads and writes the fields of a Tally, so nobody comes to `past` by runs that are not counted.
ghost use Rattle.std.specs.Prelude.{◌≡◌, ◌+◌, ◌-◌, ◌<◌, ◌≤◌, ◌^◌, length};
ghost use Rattle.substitution.specs.Tally.{NothingYet, OneRun, OneValue, then_moved};

use buffer::run;

// How much of the body is gone over, the place after what was written, the runs of the body that were moved, and how often the value was.
#[derive(Clone, Copy)]
pub struct Tally {
    read: usize,
    past: usize,
    runs: usize,
    values: usize,
}

impl Tally {
    // Nothing of the body yet, and nothing in the output.
    pub fn none() -> Tally
        ensures { NothingYet result }
    {
        Tally {
            read: 0,
            past: 0,
            runs: 0,
            values: 0,
        }
    }

    // Moves the body up to `end`, as one run.
    pub fn run(self, body: &[u8], end: usize, out: &mut [u8]) -> Tally
        requires { (self.read ≤ end) × (end ≤ length body.now) × (self.past + (end - self.read) ≤ length out.old) × (self.runs + 1 < 2 ^ 64) }
        ensures { OneRun body.now end out.old out.new self result }
    {
        let past = run::copy(body, self.read, end, out, self.past);
        Tally {
            read: end,
            past,
            runs: self.runs + 1,
            values: self.values,
        }
    }

    // Moves the value, in the place of the next `gap` bytes of the body.
    pub fn value(self, value: &[u8], gap: usize, out: &mut [u8]) -> Tally
        requires { (self.read + gap < 2 ^ 64) × (self.past + length value.now ≤ length out.old) × (self.values + 1 < 2 ^ 64) }
        ensures { OneValue value.now gap out.old out.new self result }
    {
        let past = run::copy(value, 0, value.len(), out, self.past);
        Tally {
            read: self.read + gap,
            past,
            runs: self.runs,
            values: self.values + 1,
        }
    }

    // What was moved for this and, before it, for the first.
    pub fn after(self, first: Tally) -> Tally
        requires { (first.runs + self.runs < 2 ^ 64) × (first.values + self.values < 2 ^ 64) }
        ensures { result ≡ then_moved first self }
    {
        Tally {
            read: self.read,
            past: self.past,
            runs: first.runs + self.runs,
            values: first.values + self.values,
        }
    }

    // The place after what was written.
    pub fn past(self) -> usize
        ensures { result ≡ self.past }
    {
        self.past
    }
}
