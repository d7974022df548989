// The planner's pass over the links, which gives directions and finds the lowest link whose removal parts the mesh. A mesh's links are given by their ends as
// numbers, as `mesh::split` stores them.
ghost use Rattle.std.specs.Prelude.{◌≡◌, ◌+◌, ◌<◌, ◌≤◌};
ghost use Rattle.scan.specs.Test.{Says};
ghost use Rattle.scan.specs.Entry.{at};
ghost use Rattle.mesh.specs.declared.Mesh.{Mesh};
ghost use Rattle.planner.specs.Search.{Given, directed};

use ends::{high_of, low_of};
use rows::{Arcs, Parallel, Rows};

// Whether the link after link i has its ends: links with the same ends stand next to each other, and entries past the last link are 0.
fn is_followed(ends: &[u16; 256], i: usize) -> bool
    ensures { Says result ((i < 255) × (at ends.now i ≡ at ends.now (i + 1))) }
{
    i < 255 && ends[i] == ends[i + 1]
}

// A direction for each link, each in turn, the links before it having theirs; or the number of the first link that parts the mesh.
pub(crate) fn all_directions(count: u16, ends: &[u16; 256], ways: Rows) -> Result<[u8; 256], u16>
    requires { count ≤ 256 }
    ensures { (m : Mesh) → Given m count ends.now ways.0 → result ≡ directed m }
{
    let mut arcs = Arcs {
        leaving: ways,
        entering: ways,
    };
    let mut directions = [0u8; 256];
    let mut before = false;
    for k in 0..count {
        let i = k as usize;
        let after = is_followed(ends, i);
        let low = low_of(ends[i]);
        let high = high_of(ends[i]);
        let Some(d) = arcs.direct(low, high, Parallel { before, after }) else {
            return Err(k);
        };
        directions[i] = d;
        before = after;
    }
    Ok(directions)
}
