// The pieces of a session, and what each call finds of them first. What of them the functions on the back-up digraph are given, and the record test on
// them, are theory (specs/Given.antt, specs/Pieces.antt).
#![tactic(auto)]

ghost use Rattle.std.specs.Prelude.{◌≡◌};
ghost use Rattle.mesh.specs.Parts.{ends_in};
ghost use Rattle.mesh.specs.WellFormed.{InRange};
ghost use Rattle.wavelengths.specs.Wavelength.{pair};
ghost use Rattle.pieces.specs.Pieces.{tested};

use flood::Flood;
use mesh::{Mesh, Reason};

// Takes the mesh apart once, and tests the record: stores the ends of its links as numbers, zeros past them, and gives the answer.
#[inline]
pub fn take_apart(
    mesh: Mesh,
    directions: &[u8; 256],
    cut: Option<u16>,
    first: &Flood,
    second: &Flood,
    ends: &mut [u16; 256],
) -> Result<(), Reason>
    ensures ends { ends.new ≡ ends_in mesh }
    ensures answer { result ≡ tested mesh directions.now cut (pair first.now second.now) }
    ensures ranges { InRange mesh }
{
    *ends = [0u16; 256];
    let zeros = mesh::split(&mesh, ends);
    formed::record_answer(
        mesh.nodes, mesh.count, zeros, ends, directions, cut, first, second,
    )
}
