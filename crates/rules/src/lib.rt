// What every room shares: the types in which public calls answer, the limits by name, and lower case. The rules themselves are definitions, in specs/.
#![tactic(auto)]

ghost use Rattle.std.specs.Prelude.{◌≡◌};
ghost use Rattle.rules.specs.Name.{lower_of};
ghost use Rattle.rules.specs.Refusal.{number_of};
ghost use Rattle.rules.specs.Stored.{kind_byte};

// The limits. specs/Limits.antt has the same numbers, and the contracts hold the code to those.
pub const MOST_BYTES: usize = 4096;

pub const MOST_NODES: usize = 512;

pub const MOST_RULES: usize = 512;

pub const MOST_FORMULA_NODES: usize = 1024;

// A block of a stored file, and how much of it is content.
pub const BLOCK_BYTES: usize = 512;

pub const BLOCK_CONTENT: usize = 506;

// The room that a call must be lent follows from them.
pub const OUTPUT_ROOM: usize = MOST_BYTES;

pub const TEXT_ROOM: usize = 5 * MOST_BYTES;

pub const FORMULA_TEXT_ROOM: usize = 11 * MOST_FORMULA_NODES;

pub const STORED_ROOM: usize = BLOCK_BYTES * ((MOST_BYTES + BLOCK_CONTENT - 1) / BLOCK_CONTENT);

pub const SCRATCH_ROOM: usize = 2 * MOST_BYTES;

pub const ENTRY_ROOM: usize = MOST_RULES;

// How many bytes a name and an atom may have.
pub const LONGEST_NAME: usize = 24;

pub const LONGEST_ATOM: usize = 16;

// A byte in lower case.
pub fn lower_byte(b: u8) -> u8
    ensures { result ≡ lower_of b }
{
    b.to_ascii_lowercase()
}

// An extraction may not leave the counter over this.
pub const MOST_COUNTER: usize = 100_000_000;

// The limit on steps of the programs.
pub const PROGRAM_STEPS: u32 = 1000;

// Why a call is refused, in the order of the numbers that document 01's table gives, from 1 on.
#[derive(Clone, Copy, Debug, PartialEq, Eq)]
pub enum Reason {
    ShortBuffer,
    InputTooLong,
    EndsInside,
    NotListed,
    BadName,
    OneTooMany,
    LeftOver,
    Outgrows,
    CounterOver,
    StoredLength,
    BlockCheck,
    BlockHead,
    UnusedNotZero,
    NoSuchChild,
    ReservedWord,
}

impl Reason {
    // Its number.
    pub fn number(self) -> u8
        ensures { result ≡ number_of self }
    {
        match self {
            Reason::ShortBuffer => 1,
            Reason::InputTooLong => 2,
            Reason::EndsInside => 3,
            Reason::NotListed => 4,
            Reason::BadName => 5,
            Reason::OneTooMany => 6,
            Reason::LeftOver => 7,
            Reason::Outgrows => 8,
            Reason::CounterOver => 9,
            Reason::StoredLength => 10,
            Reason::BlockCheck => 11,
            Reason::BlockHead => 12,
            Reason::UnusedNotZero => 13,
            Reason::NoSuchChild => 14,
            Reason::ReservedWord => 15,
        }
    }
}

// A fault of a reading: why, and where.
#[derive(Clone, Copy, Debug, PartialEq, Eq)]
pub struct Fault {
    pub reason: Reason,
    pub place: usize,
}

impl Fault {
    // The refusal of an input that has this fault.
    pub fn of_input(self, input: u8) -> Refusal
        ensures { result ≡ record { reason = self.reason; place = self.place; input = input } }
    {
        Refusal {
            reason: self.reason,
            place: self.place,
            input,
        }
    }
}

// A refusal: why, the place as document 01's table has it, and the input that it is about: 1, 2 or 3, or 0 for none.
#[derive(Clone, Copy, Debug, PartialEq, Eq)]
pub struct Refusal {
    pub reason: Reason,
    pub place: usize,
    pub input: u8,
}

impl Refusal {
    // One that is about no place of an input: 1, 8, 9 or 14.
    pub fn of_no_input(reason: Reason) -> Refusal
        ensures { result ≡ record { reason = reason; place = 0; input = 0 } }
    {
        Refusal {
            reason,
            place: 0,
            input: 0,
        }
    }
}

// Where a part stands in bytes: the place of its first byte, and the place after its last.
#[derive(Clone, Copy, Debug, PartialEq, Eq)]
pub struct Places {
    pub from: usize,
    pub end: usize,
}

// What a stored file holds.
#[derive(Clone, Copy, Debug, PartialEq, Eq)]
pub enum Kind {
    Term,
    Proof,
}

impl Kind {
    // The first byte of each of its blocks.
    pub fn byte(self) -> u8
        ensures { result ≡ kind_byte self }
    {
        match self {
            Kind::Term => 1,
            Kind::Proof => 2,
        }
    }
}

// The rules of reduction, in the order of their counts.
#[derive(Clone, Copy, Debug, PartialEq, Eq)]
pub enum Rule {
    App,
    Let,
    Case,
    Fst,
    Snd,
    Derelict,
    Copy,
    Discard,
}

// One count for each of them.
#[derive(Clone, Copy, Debug, Default, PartialEq, Eq)]
pub struct Counts {
    pub app: u32,
    pub lets: u32,
    pub case: u32,
    pub fst: u32,
    pub snd: u32,
    pub derelict: u32,
    pub copy: u32,
    pub discard: u32,
}
