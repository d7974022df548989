// The status of a link, on the pieces of a session: the mesh and the cut by value, the directions of the plan and the floods lent, that on wavelength 1
// and then that on wavelength 2. It takes the mesh apart once and tests the record; it changes no flood.
#![tactic(auto)]

ghost use Rattle.std.specs.Prelude.{◌≡◌, min};
ghost use Rattle.metres.specs.Length.{length_of};
ghost use Rattle.taken.specs.Taken.{is_taken};
ghost use Rattle.mesh.specs.Parts.{ends_into, rest_zero};
ghost use Rattle.mesh.specs.WellFormed.{InRange, lengths};
ghost use Rattle.wavelengths.specs.Wavelength.{pair};
ghost use Rattle.status.specs.Counts.{links_by};
ghost use Rattle.status.specs.Status.{of_link};

use flood::Flood;
use mesh::{Mesh, Parts, Reason};
use states::count;
use wavelengths::{of_wavelength, wavelength_of};

// 01's status of a link on a wavelength: its state, how many links are under way on that wavelength, and its route length.
#[derive(Clone, Copy, Debug, PartialEq, Eq)]
pub struct LinkStatus {
    pub state: u8,
    pub under_way: u16,
    pub route: Option<u32>,
}

// A link's state on a wavelength, how many links are under way on it, and its route length.
pub fn status(
    mesh: Mesh,
    directions: &[u8; 256],
    cut: Option<u16>,
    first: &Flood,
    second: &Flood,
    link: u16,
    wavelength: u8,
) -> Result<LinkStatus, Reason>
    ensures { result ≡ of_link mesh directions.now cut (pair first.now second.now) link wavelength }
{
    let w = wavelength_of(wavelength);
    let flood = of_wavelength(w, first, second);
    let busy1 = count::under_way(&first.states, mesh.count as usize);
    let busy2 = count::under_way(&second.states, mesh.count as usize);
    let links = route_links(mesh.count, cut, busy1, busy2);
    let mut ends = [0u16; 256];
    let parts = split_taken(mesh, &mut ends, &flood.states, links);
    let tested = formed::record_answer(
        mesh.nodes,
        mesh.count,
        parts.zeros,
        &ends,
        directions,
        cut,
        first,
        second,
    );
    refusals::status_answer(tested, mesh.count, link, wavelength)?;
    Ok(LinkStatus {
        state: flood.states[link as usize],
        under_way: of_wavelength(w, busy1, busy2),
        route: parts.length,
    })
}

// Takes a mesh apart, and measures the taken ones of its first `links` links. They are listed first, since the mesh is read by one function.
fn split_taken(mesh: Mesh, ends: &mut [u16; 256], states: &[u8; 256], links: usize) -> Parts
    ensures rest { result.zeros ≡ rest_zero mesh }
    ensures ends { ends.new ≡ ends_into mesh ends.old }
    ensures length { result.length ≡ length_of (lengths mesh) (is_taken states.now) (min links 256) }
    ensures ranges { InRange mesh }
{
    if links == 0 {
        let zeros = mesh::split(&mesh, ends);
        let length = Some(0);
        return Parts { zeros, length };
    }
    let mut row = [0u8; 256];
    let n = taken::list(states, links, &mut row);
    mesh::split_along(&mesh, ends, &row, n)
}

// How many links the route length is over: all where a cut stands and nothing is under way on either wavelength, else none.
fn route_links(count: u16, cut: Option<u16>, first: u16, second: u16) -> usize
    ensures { result ≡ links_by count cut first second }
{
    let Some(_) = cut else {
        return 0;
    };
    if first != 0 {
        return 0;
    }
    if second != 0 {
        return 0;
    }
    count as usize
}
