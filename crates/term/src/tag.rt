// The tags of a term's nodes, by the names of their forms.
// Kept: bytes and no enum, since a byte is what stands in the input: an enum would have to be decoded from it, by one test more at each node.

pub const VAR: u8 = 1;

pub const UNIT: u8 = 2;

pub const PAIR: u8 = 3;

pub const LET_PAIR: u8 = 4;

pub const ABS: u8 = 5;

pub const APP: u8 = 6;

pub const INL: u8 = 7;

pub const INR: u8 = 8;

pub const CASE: u8 = 9;

pub const TRIVIAL: u8 = 10;

pub const FST: u8 = 11;

pub const SND: u8 = 12;

pub const ABORT: u8 = 13;

pub const PROMOTE: u8 = 14;

pub const DERELICT: u8 = 15;

pub const DISCARD: u8 = 16;

pub const COPY: u8 = 17;
