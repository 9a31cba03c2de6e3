// The order of names, and whether two are the same.
ghost use Rattle.std.specs.Prelude.{◌≡◌};
ghost use Rattle.rules.specs.Name.{Name, same as same_name};
ghost use Rattle.term.specs.Place.{NameAt};
ghost use Rattle.free.specs.Order.{order_of};

use std::cmp::Ordering;
use term::node::name;

// How a stands to b.
fn order(a: &[u8], b: &[u8]) -> Ordering
    ensures { result ≡ order_of a.now b.now }
{
    a.cmp(&b)
}

// How the name at `at` stands to the one at `other`.
pub fn order_at(s: &[u8], at: usize, other: usize) -> Ordering
    requires { (x : Name) × (y : Name) × NameAt s.now at x × NameAt s.now other y }
    ensures { (x : Name) → (y : Name) → NameAt s.now at x → NameAt s.now other y → result ≡ order_of x y }
{
    order(name(s, at), name(s, other))
}

// Whether the names at two places are the same; the last byte tells most of them apart, and `==` comes to it last.
pub fn same_at(s: &[u8], at: usize, other: usize) -> bool
    requires { (x : Name) × (y : Name) × NameAt s.now at x × NameAt s.now other y }
    ensures { (x : Name) → (y : Name) → NameAt s.now at x → NameAt s.now other y → result ≡ same_name x y }
{
    let len = s[at] as usize;
    if s[other] as usize != len {
        return false;
    }
    if s[at + len] != s[other + len] {
        return false;
    }
    name(s, at) == name(s, other)
}
