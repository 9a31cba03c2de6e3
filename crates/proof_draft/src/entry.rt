// The cut entries: a row that is lent.

// A cut entry: the formula's place, the name's counter.
#[derive(Clone, Copy)]
pub struct CutEntry {
    pub place: usize,
    pub counter: u32,
}

// What stands in a row where there is no entry: zeros.
pub const NO_ENTRY: CutEntry = CutEntry {
    place: 0,
    counter: 0,
};
