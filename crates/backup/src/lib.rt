// The floods on the back-up digraphs of a mesh under a cut, which are lent.
#![tactic(auto)]

ghost use Rattle.std.specs.Prelude.{◌≡◌, ℕ};
ghost use Rattle.mesh.specs.declared.Mesh.{Mesh};
ghost use Rattle.flood.specs.Digraph.{Digraph, cut};
ghost use Rattle.flood.specs.Machine.{begin};
ghost use Rattle.flood.specs.Lent.{graph_on, failure_on};
ghost use Rattle.flooding.specs.Ended.{Ended, followed};
ghost use Rattle.wavelengths.specs.declared.Wavelength.{Wavelength};
ghost use Rattle.wavelengths.specs.Wavelength.{pair};
ghost use Rattle.topology.specs.Backup.{backup_on};
ghost use Rattle.pieces.specs.Given.{Given};
ghost use Rattle.backup.specs.Stepped.{Stepped};

use flood::{Arcs, Flood, Route};
use flooding::running::Outcome;
use topology::{CutMesh, entry};
use wavelengths::Wavelength;

// What became of a delivery's link: its state, and the nodes from which and to which it leads.
#[derive(Clone, Copy, Debug, PartialEq, Eq)]
pub struct Acted {
    pub state: u8,
    pub tail: u8,
    pub head: u8,
}

// The link is cut: the flood on a wavelength begins.
pub fn begin(mesh: &CutMesh, wavelength: Wavelength, flood: &mut Flood)
    ensures { (m : Mesh) → Given m mesh.now.count mesh.now.ends.now mesh.now.link
        → let g = backup_on wavelength m (record { directions = mesh.now.directions.now }) in
        flood.new ≡ begin g (cut g mesh.now.link) flood.old }
{
    let arcs = mesh.arcs(wavelength);
    delivery::begin(&arcs, flood);
}

// A delivery on a link.
fn step_on(arcs: &Arcs, flood: &mut Flood, link: u16) -> Acted
    ensures { (n : ℕ) → Stepped (graph_on n arcs.now) (failure_on arcs.now) link flood.old flood.new result }
{
    delivery::step(arcs, flood, link as usize);
    let state = entry(&flood.states, link);
    let tail = entry(&arcs.tails, link);
    let head = entry(&arcs.heads, link);
    Acted { state, tail, head }
}

// A delivery on a link and a wavelength.
pub fn step(mesh: &CutMesh, wavelength: Wavelength, flood: &mut Flood, link: u16) -> Acted
    ensures { (m : Mesh) → Given m mesh.now.count mesh.now.ends.now mesh.now.link
        → let g = backup_on wavelength m (record { directions = mesh.now.directions.now }) in
        Stepped g (cut g mesh.now.link) link flood.old flood.new result }
{
    let arcs = mesh.arcs(wavelength);
    step_on(&arcs, flood, link)
}

// Deliveries on the lowest link under way on either wavelength, on wavelength 1 before 2, until nothing is under way on either or until as many are made as
// allowed. The arcs of wavelength 2 are those of wavelength 1 turned round.
pub fn run(mesh: &CutMesh, first: &mut Flood, second: &mut Flood, allowance: u32) -> Outcome
    ensures { (m : Mesh) → Given m mesh.now.count mesh.now.ends.now mesh.now.link
        → let g : Wavelength → Digraph = λ w. backup_on w m (record { directions = mesh.now.directions.now }) in
        Ended g (λ w. cut (g w) mesh.now.link) allowance (pair first.old second.old)
        (pair first.new second.new) result.made result.rest }
{
    let first_arcs = mesh.arcs(Wavelength::First);
    let second_arcs = mesh.turned(&first_arcs);
    flooding::running::run(&first_arcs, first, &second_arcs, second, allowance)
}

// The taken links on a wavelength, from the source on.
pub fn route(mesh: &CutMesh, wavelength: Wavelength, flood: &Flood) -> Route
    ensures { (m : Mesh) → Given m mesh.now.count mesh.now.ends.now mesh.now.link
        → let g = backup_on wavelength m (record { directions = mesh.now.directions.now }) in
        result ≡ followed g (cut g mesh.now.link).source flood.now.states }
{
    let arcs = mesh.arcs(wavelength);
    flooding::walk::follow(&arcs, flood)
}
