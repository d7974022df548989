// What is asked of a session, on its pieces: the mesh and the cut by value, the directions of the plan and the floods lent, that on wavelength 1 and then
// that on wavelength 2. Each takes the mesh apart once and tests the record; none changes a flood.
#![tactic(auto)]

ghost use Rattle.std.specs.Prelude.{◌≡◌, cond, []};
ghost use Rattle.flood.specs.Digraph as failures;
ghost use Rattle.flood.specs.Topology.{route_from, as_route};
ghost use Rattle.wavelengths.specs.Wavelength.{pair};
ghost use Rattle.refusals.specs.Refusals.{resting};
ghost use Rattle.topology.specs.Backup.{backup_on};
ghost use Rattle.pieces.specs.Given.{Given};
ghost use Rattle.pieces.specs.Pieces as given;
ghost use Rattle.queries.specs.Queries.{mend_of, route_of};

use flood::{Flood, Route};
use formed::cut_link;
use mesh::{Mesh, Reason};
use topology::CutMesh;
use wavelengths::{Wavelength, of_wavelength, wavelength_of};

// The answer to the record.
pub fn tested(
    mesh: Mesh,
    directions: &[u8; 256],
    cut: Option<u16>,
    first: &Flood,
    second: &Flood,
) -> Result<(), Reason>
    ensures { result ≡ given.tested mesh directions.now cut (pair first.now second.now) }
{
    let mut ends = [0u16; 256];
    pieces::take_apart(mesh, directions, cut, first, second, &mut ends)
}

// Whether the cut link can be mended.
pub fn mend_answer(
    mesh: Mesh,
    directions: &[u8; 256],
    cut: Option<u16>,
    first: &Flood,
    second: &Flood,
    link: u16,
) -> Result<(), Reason>
    ensures { result ≡ mend_of mesh directions.now cut (pair first.now second.now) link }
{
    let mut ends = [0u16; 256];
    let tested = pieces::take_apart(mesh, directions, cut, first, second, &mut ends);
    let rest = refusals::is_resting(mesh.count, &first.states)
        & refusals::is_resting(mesh.count, &second.states);
    refusals::mend_answer(tested, mesh.count, cut, rest, link)
}

// The links of a wavelength's route from its source on, where a cut stands and nothing is under way on that wavelength.
pub fn route(
    mesh: Mesh,
    directions: &[u8; 256],
    cut: Option<u16>,
    first: &Flood,
    second: &Flood,
    wavelength: u8,
) -> Result<Route, Reason>
    ensures { result ≡ route_of mesh directions.now cut (pair first.now second.now) wavelength }
{
    let mut ends = [0u16; 256];
    let tested = pieces::take_apart(mesh, directions, cut, first, second, &mut ends);
    refusals::route_answer(tested, cut, wavelength)?;
    let cutting = CutMesh {
        count: mesh.count,
        directions,
        ends: &ends,
        link: cut_link(cut),
    };
    let w = wavelength_of(wavelength);
    Ok(route_on(&cutting, w, of_wavelength(w, first, second)))
}

fn no_route() -> Route
    ensures { result ≡ as_route [] }
{
    Route {
        links: [0u16; 256],
        length: 0,
    }
}

// The links of the route on a wavelength with this flood, from its source on; none where a link is under way.
fn route_on(mesh: &CutMesh, w: Wavelength, flood: &Flood) -> Route
    ensures { (m : Mesh) → Given m mesh.now.count mesh.now.ends.now mesh.now.link
        → let g = backup_on w m (record { directions = mesh.now.directions.now }) in
        result ≡ as_route (cond (resting mesh.now.count flood.now.states)
        (route_from g m.count (failures.cut g mesh.now.link).source flood.now.states) []) }
{
    if !refusals::is_resting(mesh.count, &flood.states) {
        return no_route();
    }
    backup::route(mesh, w, flood)
}
