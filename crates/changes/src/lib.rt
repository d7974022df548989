// The calls that change the floods of a session, on the session's pieces: the mesh and the cut by value, the directions of the plan and the floods lent, that
// on wavelength 1 and then that on wavelength 2. Each takes the mesh apart once and tests the record; a refused call leaves the floods alone.
#![tactic(auto)]

ghost use Rattle.std.specs.Prelude.{◌≡◌};
ghost use Rattle.wavelengths.specs.Wavelength.{pair};
ghost use Rattle.formed.specs.Formed.{cut_link};
ghost use Rattle.changes.specs.Changes.{AfterCut, AfterDelivery, AfterRun};
ghost use Rattle.changes.specs.OneFlood.{OnOneFlood};

use backup::Acted;
use flood::Flood;
use flooding::running::Outcome;
use formed::cut_link;
use mesh::{Mesh, Reason};
use topology::CutMesh;
use wavelengths::{Wavelength, wavelength_of};

// The link is cut: a flood begins on each wavelength.
pub fn cut(
    mesh: Mesh,
    directions: &[u8; 256],
    before: Option<u16>,
    first: &mut Flood,
    second: &mut Flood,
    link: u16,
) -> Result<(), Reason>
    ensures { AfterCut mesh directions.now before (pair first.old second.old) link (pair first.new second.new) result }
{
    let mut ends = [0u16; 256];
    let tested = pieces::take_apart(mesh, directions, before, first, second, &mut ends);
    refusals::cut_answer(tested, mesh.count, before, link)?;
    let cutting = CutMesh {
        count: mesh.count,
        directions,
        ends: &ends,
        link,
    };
    backup::begin(&cutting, Wavelength::First, first);
    backup::begin(&cutting, Wavelength::Second, second);
    Ok(())
}

// A delivery on a link and a wavelength whose flood is lent, after the answer to the record.
fn deliver_on(
    tested: Result<(), Reason>,
    mesh: &CutMesh,
    cut: Option<u16>,
    flood: &mut Flood,
    link: u16,
    wavelength: u8,
) -> Result<Acted, Reason>
    requires { mesh.now.link ≡ cut_link cut }
    ensures { OnOneFlood tested mesh.now.count mesh.now.directions.now mesh.now.ends.now cut flood.old link wavelength flood.new result }
{
    refusals::deliver_answer(tested, mesh.count, cut, &flood.states, link, wavelength)?;
    Ok(backup::step(mesh, wavelength_of(wavelength), flood, link))
}

// A delivery on a link and a wavelength.
pub fn deliver(
    mesh: Mesh,
    directions: &[u8; 256],
    cut: Option<u16>,
    first: &mut Flood,
    second: &mut Flood,
    link: u16,
    wavelength: u8,
) -> Result<Acted, Reason>
    ensures { AfterDelivery mesh directions.now cut (pair first.old second.old) link wavelength (pair first.new second.new) result }
{
    let mut ends = [0u16; 256];
    let tested = pieces::take_apart(mesh, directions, cut, first, second, &mut ends);
    let cutting = CutMesh {
        count: mesh.count,
        directions,
        ends: &ends,
        link: cut_link(cut),
    };
    match wavelength_of(wavelength) {
        Wavelength::First => deliver_on(tested, &cutting, cut, first, link, wavelength),
        Wavelength::Second => deliver_on(tested, &cutting, cut, second, link, wavelength),
    }
}

// Deliveries on the lowest link under way on either wavelength, on wavelength 1 before 2, until nothing is under way on either or until the allowed number
// is used.
pub fn run(
    mesh: Mesh,
    directions: &[u8; 256],
    cut: Option<u16>,
    first: &mut Flood,
    second: &mut Flood,
    allowance: u32,
) -> Result<Outcome, Reason>
    ensures { AfterRun mesh directions.now cut (pair first.old second.old) allowance (pair first.new second.new) result }
{
    let mut ends = [0u16; 256];
    let tested = pieces::take_apart(mesh, directions, cut, first, second, &mut ends);
    refusals::run_answer(tested, cut)?;
    let cutting = CutMesh {
        count: mesh.count,
        directions,
        ends: &ends,
        link: cut_link(cut),
    };
    Ok(backup::run(&cutting, first, second, allowance))
}
