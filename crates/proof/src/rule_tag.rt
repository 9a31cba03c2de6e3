// The tags of a proof's rules, by the names of the rules.
// Kept: bytes and no enum, as the tags of a term (term::tag).

pub const AXIOM: u8 = 1;

pub const CUT: u8 = 2;

pub const ONE_INTRO: u8 = 3;

pub const BOTTOM_INTRO: u8 = 4;

pub const TENSOR_INTRO: u8 = 5;

pub const PAR_INTRO: u8 = 6;

pub const TOP_INTRO: u8 = 7;

pub const WITH_INTRO: u8 = 8;

pub const PLUS_INTRO_LEFT: u8 = 9;

pub const PLUS_INTRO_RIGHT: u8 = 10;

pub const OF_COURSE_INTRO: u8 = 11;

pub const WHY_NOT_INTRO: u8 = 12;

pub const WEAKENING: u8 = 13;

pub const CONTRACTION: u8 = 14;

pub const DERELICTION: u8 = 15;

pub const FOCUS_POSITIVE: u8 = 16;

pub const FOCUS_NEGATIVE: u8 = 17;

pub const BLUR: u8 = 18;
