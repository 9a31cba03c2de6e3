// What the binders of a node cover, as a mask of the node's parts: 1 for the first, 2 for the second, 4 for the third.
// Kept: a number, since a walk over a term hands it on in a register and halves it from part to part.
ghost use Rattle.std.specs.Prelude.{◌≡◌, ◌||◌, ◌+◌, if◌then◌else◌, ◌==◌};

pub const NONE: usize = 0;

// Abs.
const ABS_BODY: usize = 1;

// LetPair and Copy.
const PAIR_BODY: usize = 2;

// Case.
const LEFT: usize = 2;

const RIGHT: usize = 4;

const BRANCHES: usize = 6;

// What the binder of an Abs covers, where x tells whether it is the name sought.
pub fn by_one(x: bool) -> usize
    ensures { result ≡ (if x then 1 else 0) }
{
    if x { ABS_BODY } else { NONE }
}

// What the two binders of a node cover, where x and y tell whether each is the name sought.
pub fn by_two(x: bool, y: bool, parts: usize) -> usize
    ensures { result ≡ (if parts == 2 then (if x || y then 2 else 0) else ((if x then 2 else 0) + (if y then 4 else 0))) }
{
    if parts == 2 {
        return if x || y { PAIR_BODY } else { NONE };
    }
    match (x, y) {
        (true, true) => BRANCHES,
        (true, false) => LEFT,
        (false, true) => RIGHT,
        (false, false) => NONE,
    }
}
