// The tags of a formula's nodes, by the names of their forms.
// Kept: bytes and no enum, as the tags of a term (term::tag).

pub const ATOM: u8 = 1;

pub const NEG_ATOM: u8 = 2;

pub const TENSOR: u8 = 3;

pub const PAR: u8 = 4;

pub const ONE: u8 = 5;

pub const BOTTOM: u8 = 6;

pub const WITH: u8 = 7;

pub const PLUS: u8 = 8;

pub const TOP: u8 = 9;

pub const ZERO: u8 = 10;

pub const OF_COURSE: u8 = 11;

pub const WHY_NOT: u8 = 12;

pub const LOLLI: u8 = 13;
