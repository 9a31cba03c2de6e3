// Goes ahead over the good nodes of a term as reader::ahead does, and tells by the way whether any of them is a redex.
ghost use Rattle.std.specs.Prelude.{◌≡◌, true, ◌+◌, ◌≤◌, ◌<◌, length};
ghost use Rattle.reader.specs.Form.{layout_of};
ghost use Rattle.reader.specs.declared.class.Form.TheVariants.{Term};
ghost use Rattle.reader.specs.Classes.{Classes};
ghost use Rattle.reader.specs.Count.{Gone};
ghost use Rattle.redex.specs.Swept.{Swept};
ghost use Rattle.redex.specs.After.{CalmAt};

use crate::tags::{never_reduces, reduces};
use reader::ahead::{Ahead, last_pair, names_end};
use reader::class::{Form, code_of};

// What was gone over, and whether no node of it is a redex.
// Kept: a flag, since what was gone over is told whether or not it is calm.
#[derive(Clone, Copy)]
pub struct Calmly {
    pub gone: Ahead,
    pub calm: bool,
}

// Whether a node with that tag is surely no redex. Its first part follows its names, which end at `past`; a node with one name is none.
fn is_calm(s: &[u8], tag: usize, names: usize, past: usize) -> bool
    requires { tag < 20 }
    ensures { result ≡ true → CalmAt s.now tag names past }
{
    names == 1
        || never_reduces(tag)
        || s.get(past)
            .is_some_and(|first| *first < 20 && !reduces(tag, *first as usize))
}

// From the beginning of s on, where one node is to be read.
// Kept: a loop beside reader's `go_ahead`: in one for both, a closure would look at each node, with a clause for all the nodes it has seen.
pub fn go_calmly(s: &[u8], t: &[u32; 256]) -> Calmly
    requires classes { Classes (layout_of Term) t.now }
    requires s_len_bound { length s.now ≤ 65536 }
    ensures { Gone (layout_of Term) s.now 0 1 result.gone.next result.gone.met result.gone.known result.gone.names × (result.gone.met ≤ 65600) × (result.calm ≡ true → Swept s.now result.gone.next 0) }
{
    let stop = last_pair(s.len());
    let mut gone = Ahead {
        next: 0,
        met: 0,
        known: 1,
        names: 0,
    };
    let mut calm = true;
    while gone.met < gone.known && gone.next < stop {
        let tag = s[gone.next];
        let code = code_of(Form::Term, t, tag);
        if code == 0 {
            break;
        }
        let few = code / 2 % 4;
        let Some(past) = names_end(s, Form::Term, t, gone.next + 1, few, stop) else {
            break;
        };
        calm = calm && is_calm(s, tag as usize, few, past);
        gone.next = past;
        gone.met += 1;
        gone.known += code / 8;
        gone.names += few;
    }
    Calmly { gone, calm }
}
