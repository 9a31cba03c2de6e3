// What a call is lent: buffers that are filled before it, and what it leaves in them.

// No zero, so that what is left as it was can be told from what is set to zero.
pub const FILLED: u8 = 170;

// What is left in a buffer, by its number in the list.
#[derive(Clone, Copy, Debug, PartialEq, Eq)]
pub enum Left {
    AsItWas,
    Answered,
    Other,
}

// Whether all bytes are b. Every byte is looked at, for then many are compared at once, where `all`, which stops at the first other one, goes byte by byte.
fn all_are(bytes: &[u8], b: u8) -> bool {
    bytes.iter().fold(true, |same, byte| same & (*byte == b))
}

impl Left {
    // Whether a buffer is as it was filled, or holds the wanted bytes and then zeros to its end.
    pub fn of(buffer: &[u8], wanted: &[u8]) -> Left {
        if all_are(buffer, FILLED) {
            return Left::AsItWas;
        }
        match buffer.strip_prefix(wanted) {
            Some(rest) if all_are(rest, 0) => Left::Answered,
            _ => Left::Other,
        }
    }
}
