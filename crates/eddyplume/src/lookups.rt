// The lookup.
ghost use Rattle.dataset.specs.Lookup.{found};
ghost use Rattle.eddyplume.specs.Boundary.{LookedUp};

use crate::c_values;
use dataset::lookup;

// Where the value of a top-level tag lies.
#[unsafe(no_mangle)]
pub extern "C" fn eddyplume_lookup(d: &[u8], tag: u32, answer: &mut [u64; 3], part: &mut [u64; 3])
    ensures { LookedUp (found d.now tag) answer.new part.new }
{
    let f = lookup::find(d, tag);
    *answer = c_values::answer_words(f.answer);
    let present = c_values::flag_of(f.present);
    *part = [present, f.start as u64, f.length as u64];
}
