// A body with a value in the place of some of its runs. Nothing here knows a tag.
ghost use Rattle.substitution.specs.Spliced.{Splicing, Splices};

use crate::tally::Tally;

// Writes the body to out, with `value` for the `gap` bytes at each of the places: one run up to each place and the value, and one last run.
pub fn splice(body: &[u8], places: &[u16], gap: usize, value: &[u8], out: &mut [u8]) -> Tally
    requires { Splicing body.now places.now gap value.now out.old }
    ensures { Splices body.now places.now gap value.now out.old out.new result }
{
    let mut tally = Tally::none();
    for place in places {
        tally = tally.run(body, *place as usize, out);
        tally = tally.value(value, gap, out);
    }
    tally.run(body, body.len(), out)
}
