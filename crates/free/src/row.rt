// The row of names of a walk, kept by their places.
ghost use Rattle.std.specs.Prelude.{◌≡◌, ◌↔◌, IsTrue, true, List, ◌-◌, ◌≤◌, ◌<◌, length, set, if◌then◌else◌};
ghost use Rattle.rules.specs.Name.{Name, among};
ghost use Rattle.rules.specs.Free.{insert};
ghost use Rattle.term.specs.Place.{NameAt};
ghost use Rattle.free.specs.Rows.{binders, guesses};
ghost use Rattle.free.specs.State.{Live, Meets, Met};

use crate::order::same_at;
use crate::slot::{BINDERS, open_at, passed, slot_for};

// How many guesses stand behind the binders, and where the row ends.
pub const GUESSES: usize = 64;

pub const ROW_END: usize = BINDERS + GUESSES;

// The places of the names found from its start on, in order, and how many they are; of the binders passed up to BINDERS, the nearest first;
// behind them guesses at where a name stands.
#[derive(Drop)]
pub struct NameRow {
    pub places: [u16; ROW_END],
    pub found: usize,
}

// Which guess is that of the name at `at`.
fn guess_of(s: &[u8], at: usize) -> usize
    requires { (x : Name) × NameAt s.now at x }
    ensures { result < guesses }
{
    let len = s[at] as usize;
    let last = at + len;
    let middle = at + (len + 1) / 2;
    (s[middle] as usize + s[last] as usize * 4 + len) % GUESSES
}

impl NameRow {
    // Whether the entry g is a name found or a binder passed.
    fn is_live(&self, low: usize, g: usize) -> bool
        ensures { IsTrue result ↔ Live g low self.now.found }
    {
        g < self.found || (low..BINDERS).contains(&g)
    }

    // Whether the entry g shows that meeting the name at `at` changes nothing: it is found already, or a binder passed is of that name.
    fn knows(&self, s: &[u8], at: usize, low: usize, g: usize) -> bool
        requires { (x : Name) × (xs : List Name) × (l : List Name) × Meets s.now at self.now.places low self.now.found x xs l }
        ensures { (x : Name) → (xs : List Name) → (l : List Name) → Meets s.now at self.now.places low self.now.found x xs l → result ≡ true → (if among x xs then l else insert x l) ≡ l }
    {
        self.is_live(low, g) && same_at(s, at, self.places[g] as usize)
    }

    // The name at `at`, of a variable: put into the row unless it is there already or a binder passed is of that name; and where it stands.
    // A call of its own, so that the walk has few registers to save.
    // Kept: no map, since there is no heap: the names found are in order, and where a name like it was last seen is asked first.
    #[inline(never)]
    fn find_or_put(&mut self, s: &[u8], at: usize, low: usize) -> usize
        requires { (x : Name) × (xs : List Name) × (l : List Name) × Meets s.now at self.old.places low self.old.found x xs l }
        ensures met { (x : Name) → (xs : List Name) → (l : List Name) → Meets s.now at self.old.places low self.old.found x xs l → Met s.now self.new.places low self.old.found x xs l self.new.found }
        ensures before_guesses { result < binders }
    {
        match slot_for(s, at, &self.places[..self.found]) {
            Ok(i) => i,
            Err(i) => match passed(s, at, &self.places, low) {
                Some(b) => b,
                None => {
                    open_at(&mut self.places, self.found, i, at as u16);
                    self.found += 1;
                    i
                }
            },
        }
    }

    // The name at `at`, of a variable: the guess is tried first. Where the name stands is the next guess.
    pub fn meet(&mut self, s: &[u8], at: usize, low: usize)
        requires { (x : Name) × (xs : List Name) × (l : List Name) × Meets s.now at self.old.places low self.old.found x xs l }
        ensures { (x : Name) → (xs : List Name) → (l : List Name) → Meets s.now at self.old.places low self.old.found x xs l → Met s.now self.new.places low self.old.found x xs l self.new.found }
    {
        let guess = BINDERS + guess_of(s, at);
        let g = self.places[guess] as usize;
        if !self.knows(s, at, low, g) {
            self.places[guess] = self.find_or_put(s, at, low) as u16;
        }
    }

    // Puts the place of a binder's name before those from low on, and says where it stands.
    pub fn push(&mut self, low: usize, at: usize) -> usize
        requires { (0 < low) × (low ≤ length self.old.places) × (at < 65536) }
        ensures { (result ≡ low - 1) × (self.new.places ≡ set self.old.places (low - 1) at) × (self.new.found ≡ self.old.found) }
    {
        let to = low - 1;
        self.places[to] = at as u16;
        to
    }
}
