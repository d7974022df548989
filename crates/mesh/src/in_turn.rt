// The tests of each link on the ends of all, as numbers: the quick tests first, and the refusal itself only where these do not pass.
ghost use Rattle.std.specs.Prelude.{◌≡◌, ◌≤◌};
ghost use Rattle.mesh.specs.Parts.{entries_answer};

use crate::{Reason, ends_answer, zero_link};
use ends::{high_of, low_of};

// The answer of the first entry that is refused.
fn first_refusal(nodes: u8, count: usize, ends: &[u16; 256]) -> Result<(), Reason>
    requires { count ≤ 256 }
    ensures { result ≡ entries_answer nodes ends.now 0 count }
{
    let mut prev = zero_link();
    for i in 0..count {
        let e = ends[i];
        let low = low_of(e);
        let high = high_of(e);
        ends_answer(nodes, prev, low as usize, high as usize, i)?;
        prev.low = low;
        prev.high = high;
    }
    Ok(())
}

// The first entries in turn: 7, 6, 8.
pub(crate) fn ends_in_turn(nodes: u8, count: usize, ends: &[u16; 256]) -> Result<(), Reason>
    requires { count ≤ 256 }
    ensures { result ≡ entries_answer nodes ends.now 0 count }
{
    if ends::fit(nodes, count, ends) && ends::rise(count, ends) {
        return Ok(());
    }
    first_refusal(nodes, count, ends)
}
