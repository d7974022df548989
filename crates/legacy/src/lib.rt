// The session record from before wavelength 2, as switches in service hold it, and its test. These types never change: the record of now has types of its
// own.
#![tactic(auto)]

ghost use Rattle.std.specs.Prelude.{◌≡◌};
ghost use Rattle.legacy.specs.Record.{misplaced, ill_formed, record_answer};
ghost use Rattle.legacy.specs.WellFormed.{InRange};

use faults::{has_bad_entry, has_stray};
use mesh::Reason;

mod current;
mod links;

// form: types of their own beside those of now: these never change, since switches in service hold records of them
#[derive(Clone, Copy, Debug, PartialEq, Eq)]
pub struct OldLink {
    pub low: u8,
    pub high: u8,
    pub length: u16,
    pub pair: u32,
}

#[derive(Clone, Copy, Debug, PartialEq, Eq)]
pub struct OldMesh {
    pub links: [OldLink; 256],
    pub nodes: u8,
    pub count: u16,
}

// A direction for each link: 0 from its low to its high end, 1 from its high to its low end.
#[derive(Clone, Copy, Debug, PartialEq, Eq)]
pub struct OldPlan {
    pub directions: [u8; 256],
}

// The cut link, or none.
// form: an enum of its own and not an Option: the old types never change
#[derive(Clone, Copy, Debug, PartialEq, Eq)]
pub enum OldCut {
    Nothing,
    Link(u16),
}

// A state per link (0 quiet, 1 offered, 2 taken, 3 refused, 4 released), and which nodes are reached.
#[derive(Clone, Copy, Debug, PartialEq, Eq)]
pub struct OldFlood {
    pub states: [u8; 256],
    pub reached: [bool; 64],
}

// Mesh, plan, the cut link or none, and one flood.
#[derive(Clone, Copy, Debug, PartialEq, Eq)]
pub struct OldSession {
    pub mesh: OldMesh,
    pub plan: OldPlan,
    pub cut: OldCut,
    pub flood: OldFlood,
}

// Whether the cut is neither a link nor none.
fn is_misplaced(links: u16, cut: OldCut) -> bool
    ensures { result ≡ misplaced links cut }
{
    match cut {
        OldCut::Link(k) => links <= k,
        OldCut::Nothing => false,
    }
}

// Whether the plan, the cut or the flood is ill formed. The tests of entries and nodes are those of two floods: the one flood stands for both.
#[tactic(auto, unfolding(crate::specs::Record::ill_formed))]
fn is_ill_formed(s: OldSession) -> bool
    ensures { result ≡ ill_formed s }
{
    has_bad_entry(
        s.mesh.count,
        &s.plan.directions,
        &s.flood.states,
        &s.flood.states,
    ) | is_misplaced(s.mesh.count, s.cut)
        | has_stray(s.mesh.nodes, &s.flood.reached, &s.flood.reached)
}

// The test of an old session's record: the mesh checks, then 13, each with the place that it had before; links may have the same ends now.
pub fn check(s: OldSession) -> Result<(), Reason>
    ensures answer { result ≡ record_answer s }
    ensures ranges { InRange s.mesh }
{
    let mut ends = [0u16; 256];
    let zeros = links::split(&s.mesh, &mut ends);
    mesh::parts_answer(s.mesh.nodes, s.mesh.count, zeros, &ends)?;
    if is_ill_formed(s) {
        return Err(Reason {
            number: 13,
            place: 0,
        });
    }
    Ok(())
}
