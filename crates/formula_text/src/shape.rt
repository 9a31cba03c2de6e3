// What a formula's tag tells of its shape.
ghost use Rattle.std.specs.Prelude.{◌≡◌};
ghost use Rattle.formula_text.specs.Words.{shape_of, names_of};

use reader::formula_tag::{ATOM, NEG_ATOM};

// A leaf is an atom or a constant.
#[derive(Clone, Copy, Debug, PartialEq, Eq)]
pub enum Shape {
    Leaf,
    Exponential,
    Connective,
}

// The shape of each tag from 0 on.
// Kept: a table; a `match` on the tag becomes a row of tests, by which the walk takes half as long again.
static SHAPES: [Shape; 16] = [
    Shape::Leaf,
    Shape::Leaf,
    Shape::Leaf,
    Shape::Connective,
    Shape::Connective,
    Shape::Leaf,
    Shape::Leaf,
    Shape::Connective,
    Shape::Connective,
    Shape::Leaf,
    Shape::Leaf,
    Shape::Exponential,
    Shape::Exponential,
    Shape::Connective,
    Shape::Leaf,
    Shape::Leaf,
];

pub fn shape_of(tag: u8) -> Shape
    ensures { result ≡ shape_of tag }
{
    SHAPES[(tag % 16) as usize]
}

// How many names follow the tag: one an atom's, none a constant's. It is a number, so that a leaf is printed without a branch.
pub fn names_of(tag: u8) -> usize
    ensures { result ≡ names_of tag }
{
    usize::from(tag == ATOM || tag == NEG_ATOM)
}
