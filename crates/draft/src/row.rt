// A row of a draft: what it says, the parts and the name that it says it of.
ghost use Rattle.std.specs.Prelude.{◌≡◌, ◌+◌, ◌<◌, length};
ghost use Rattle.draft.specs.Draft.{Rows, shape_of};
ghost use Rattle.draft.specs.Heads.{tag_of, parts_of, node_count_of};
ghost use Rattle.draft.specs.Made.{Added};

// A part is told by a number: Unit, Trivial, and then the rows in their order. Kept: a number and no enum, since the size of a part is looked up by it.
pub const UNIT: usize = 0;

pub const TRIVIAL: usize = 1;

pub const FIRST_PARTS: usize = 2;

#[derive(Clone, Copy, Debug, PartialEq, Eq)]
pub enum RowKind {
    Named,
    Identity,
    Inl,
    Inr,
    Promote,
    Derelict,
    Pair,
    App,
    Discard,
    LetPair,
    Case,
    Copy,
}

// A row says the same five things whatever its kind; a name without a number, and the stem of an `x`, are 0.
// Kept: one flat row and 0 for none: with data in each variant, whoever asks for first, second or number would match on all kinds.
#[derive(Clone, Copy)]
pub struct Row {
    pub kind: RowKind,
    pub first: usize,
    pub second: usize,
    pub number: usize,
    pub stem: usize,
}

// What stands in an array of rows before it is written: zeros.
pub const NO_ROW: Row = Row {
    kind: RowKind::Named,
    first: UNIT,
    second: UNIT,
    number: 0,
    stem: 0,
};

impl RowKind {
    pub(crate) fn tag(self) -> u8
        ensures { result ≡ tag_of (shape_of self) }
    {
        match self {
            RowKind::Named => 1,
            RowKind::Pair => 3,
            RowKind::LetPair => 4,
            RowKind::Identity => 5,
            RowKind::App => 6,
            RowKind::Inl => 7,
            RowKind::Inr => 8,
            RowKind::Case => 9,
            RowKind::Promote => 14,
            RowKind::Derelict => 15,
            RowKind::Discard => 16,
            RowKind::Copy => 17,
        }
    }

    // How many parts follow the head: a Case has its second part twice.
    pub fn part_count(self) -> usize
        ensures { result ≡ parts_of (shape_of self) }
    {
        match self {
            RowKind::Named | RowKind::Identity => 0,
            RowKind::Pair | RowKind::App | RowKind::LetPair => 2,
            RowKind::Case => 3,
            _ => 1,
        }
    }

    // How many nodes the head itself has.
    pub fn node_count(self) -> usize
        ensures { result ≡ node_count_of (shape_of self) }
    {
        match self {
            RowKind::Identity | RowKind::Discard | RowKind::Copy => 2,
            _ => 1,
        }
    }
}

// Writes row n, whose parts come before it.
pub fn put_row(rows: &mut [Row], n: usize, row: Row)
    requires { Rows rows.old n × (n < length rows.old) × (row.first < n + 2) × (row.second < n + 2) }
    ensures { Added rows.old n row rows.new }
{
    rows[n] = row;
}
