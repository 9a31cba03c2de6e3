// Where the search is.

// What was passed ends at o in the output; the term at which the search stands begins at i in the scratch, under so many nodes.
#[derive(Clone, Copy)]
pub struct Place {
    pub o: usize,
    pub i: usize,
    pub depth: usize,
}

// Kept: the three buffers stay parameters beside it, for `&` and `&mut` say which of them a function leaves; three `&mut` in a struct need clauses.

// The mark of a node above the search: where the node starts in the output, while its first part is searched; None while its second is.
pub type Mark = Option<u16>;
