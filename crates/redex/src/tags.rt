// What a node's tag tells of the search: how many of its parts are entered, and with its first part's tag, whether it is a redex.
// Kept: each table is a number, and a look-up is a shift. A match becomes a chain of tests: with one for ENTERS a step takes 5 to 8 % longer,
// with two for WANTS and GIVES the walk of calm half as long again.
ghost use Rattle.std.specs.Prelude.{◌≡◌, ◌<◌, ◌==◌};
ghost use Rattle.redex.specs.Searched.{enters_after, reduces as reduces_of};
ghost use Rattle.redex.specs.After.{wanting};

// How many parts the search enters: two bits a tag.
const ENTERS: usize = (2 << (2 * 3)) // Pair
    + (2 << (2 * 4)) // LetPair
    + (1 << (2 * 5)) // Abs
    + (2 << (2 * 6)) // App
    + (1 << (2 * 7)) // Inl
    + (1 << (2 * 8)) // Inr
    + (1 << (2 * 9)) // Case
    + (1 << (2 * 11)) // Fst
    + (1 << (2 * 12)) // Snd
    + (1 << (2 * 14)) // Promote
    + (1 << (2 * 15)) // Derelict
    + (2 << (2 * 16)) // Discard
    + (1 << (2 * 17)); // Copy

pub fn enters_of(tag: usize) -> usize
    requires { tag < 32 }
    ensures { result ≡ enters_after tag }
{
    (ENTERS >> (tag * 2)) % 4
}

// What a rule looks for in a first part, in three bits: 0 is any other part, and NOTHING stands where no rule looks.
const PAIR: usize = 1;

const ABS: usize = 2;

const INJECTION: usize = 3;

const PROMOTE: usize = 4;

const NOTHING: usize = 7;

// What a node wants its first part to be: three bits a tag.
const WANTS: usize = NOTHING
    + (NOTHING << (3 * 1)) // Var
    + (NOTHING << (3 * 2)) // Unit
    + (NOTHING << (3 * 3)) // Pair
    + (PAIR << (3 * 4)) // LetPair
    + (NOTHING << (3 * 5)) // Abs
    + (ABS << (3 * 6)) // App
    + (NOTHING << (3 * 7)) // Inl
    + (NOTHING << (3 * 8)) // Inr
    + (INJECTION << (3 * 9)) // Case
    + (NOTHING << (3 * 10)) // Trivial
    + (PAIR << (3 * 11)) // Fst
    + (PAIR << (3 * 12)) // Snd
    + (NOTHING << (3 * 13)) // Abort
    + (NOTHING << (3 * 14)) // Promote
    + (PROMOTE << (3 * 15)) // Derelict
    + (PROMOTE << (3 * 16)) // Discard
    + (PROMOTE << (3 * 17)); // Copy

// What a first part is: three bits a tag.
const GIVES: usize = (PAIR << (3 * 3)) // Pair
    + (ABS << (3 * 5)) // Abs
    + (INJECTION << (3 * 7)) // Inl
    + (INJECTION << (3 * 8)) // Inr
    + (PROMOTE << (3 * 14)); // Promote

// Whether a node is a redex, by its tag and its first part's.
pub fn reduces(tag: usize, first: usize) -> bool
    requires { (tag < 20) × (first < 20) }
    ensures { result ≡ reduces_of tag first }
{
    (WANTS >> (tag * 3)) % 8 == (GIVES >> (first * 3)) % 8
}

// The tags whose entry of WANTS is not NOTHING, one bit a tag: a test of WANTS itself costs four instructions more at each node that is read.
const WANTING: usize = (1 << 4)
    + (1 << 6)
    + (1 << 9)
    + (1 << 11)
    + (1 << 12)
    + (1 << 15)
    + (1 << 16)
    + (1 << 17);

// Whether no first part makes a node of that tag a redex.
pub fn never_reduces(tag: usize) -> bool
    requires { tag < 20 }
    ensures { result ≡ (wanting tag == 0) }
{
    (WANTING >> tag) % 2 == 0
}
