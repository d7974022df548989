// The test of a session's record: the mesh checks, then 13.
#![tactic(auto)]

ghost use Rattle.std.specs.Prelude.{◌≡◌};
ghost use Rattle.mesh.specs.Parts.{parts_answer};
ghost use Rattle.formed.specs.Formed.{cut_link, misplaced};
ghost use Rattle.formed.specs.Pieces.{ill_formed, record_after};
ghost use Rattle.wavelengths.specs.Wavelength.{pair};

use faults::{has_bad_entry, has_stray};
use flood::Flood;
use mesh::Reason;

// The cut link; 0 where there is none.
// form: 0 for none, which the clause says, and README.md of the function: it is read only where a cut stands.
pub fn cut_link(cut: Option<u16>) -> u16
    ensures { result ≡ cut_link cut }
{
    cut.unwrap_or(0)
}

// Whether the cut is neither a link nor none.
fn is_misplaced(links: u16, cut: Option<u16>) -> bool
    ensures { result ≡ misplaced links cut }
{
    cut.is_some_and(|k| links <= k)
}

// Whether the plan, the cut or a flood is ill formed, with so many nodes and links.
fn is_ill_formed(
    nodes: u8,
    count: u16,
    directions: &[u8; 256],
    cut: Option<u16>,
    first: &Flood,
    second: &Flood,
) -> bool
    ensures { result ≡ ill_formed nodes count directions.now cut (pair first.now second.now) }
{
    has_bad_entry(count, directions, &first.states, &second.states)
        | is_misplaced(count, cut)
        | has_stray(nodes, &first.reached, &second.reached)
}

// The record of a session with these pieces: N, L, whether the mesh's entries past the last link are zero, the ends of its links, and the rest, the flood on
// wavelength 1 and then that on wavelength 2. The mesh checks, then 13.
pub fn record_answer(
    nodes: u8,
    count: u16,
    zeros: bool,
    ends: &[u16; 256],
    directions: &[u8; 256],
    cut: Option<u16>,
    first: &Flood,
    second: &Flood,
) -> Result<(), Reason>
    ensures { result ≡ record_after (parts_answer nodes count zeros ends.now) nodes count directions.now cut (pair first.now second.now) }
{
    mesh::parts_answer(nodes, count, zeros, ends)?;
    if is_ill_formed(nodes, count, directions, cut, first, second) {
        return Err(Reason {
            number: 13,
            place: 0,
        });
    }
    Ok(())
}
