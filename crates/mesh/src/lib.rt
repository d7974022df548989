// The mesh record and its checks.
#![tactic(auto)]

ghost use Rattle.std.specs.Prelude.{◌≡◌};
ghost use Rattle.mesh.specs.Mesh.{zero_link, zero_mesh, mesh_answer, ends_answer, nodes_fit, count_fits};
ghost use Rattle.mesh.specs.WellFormed.{InRange};
ghost use Rattle.mesh.specs.Parts.{parts_answer};

mod in_turn;
mod links;

pub use links::{Parts, bits_of, ends_of, split, split_along};

#[derive(Clone, Copy, Debug, PartialEq, Eq)]
pub struct Link {
    pub low: u8,
    pub high: u8,
    pub length: u16,
    pub pair: u32,
}

// form: arrays with a count, and the ducts beside the links, since memory is fixed and 01 and 02 have entries past the last link zero, which `check_refuses` says.
// The links stand first: where a mesh is stored, small fields before them would have them copied twice.
#[derive(Clone, Copy, Debug, PartialEq, Eq)]
pub struct Mesh {
    pub links: [Link; 256],
    pub nodes: u8,
    pub count: u16,
    pub ducts: [u16; 256],
}

// A direction for each link: 0 from its low to its high end, 1 from its high to its low end. Entries past the last link are zero.
#[derive(Clone, Copy, Debug, PartialEq, Eq)]
pub struct Plan {
    pub directions: [u8; 256],
}

// Why something is refused: 01's number and place.
// form: a number, since 01 names each refusal by its number, which the programs print, C reads and the theorem `check_refuses` ranges over.
#[derive(Clone, Copy, Debug, PartialEq, Eq)]
pub struct Reason {
    pub number: u8,
    pub place: usize,
}

pub fn zero_link() -> Link
    ensures { result ≡ zero_link }
{
    Link {
        low: 0,
        high: 0,
        length: 0,
        pair: 0,
    }
}

pub fn zero_mesh() -> Mesh
    ensures { result ≡ zero_mesh }
{
    Mesh {
        links: [zero_link(); 256],
        nodes: 0,
        count: 0,
        ducts: [0; 256],
    }
}

// Whether n is a number of nodes.
pub fn nodes_fit(n: u8) -> bool
    ensures { result ≡ nodes_fit n }
{
    matches!(n, 2..=64)
}

// Whether k is a number of links.
pub fn count_fits(k: u16) -> bool
    ensures { result ≡ count_fits k }
{
    k <= 256
}

// The order test: whether the pair (low, high) is not below the pair (plow, phigh).
pub fn follows(plow: usize, phigh: usize, low: usize, high: usize) -> bool
    ensures { result ≡ Rattle.mesh.specs.Mesh.follows plow phigh low high }
{
    (plow, phigh) <= (low, high)
}

// Refusals 7, 6 and 8 of a link with the ends low and high that stands after the link prev. The ends are wide: a book can
// give the high end 256.
#[tactic(auto, unfolding(crate::specs::Mesh::ends_answer))]
pub fn ends_answer(
    nodes: u8,
    prev: Link,
    low: usize,
    high: usize,
    place: usize,
) -> Result<(), Reason>
    ensures { result ≡ ends_answer nodes prev.low prev.high low high place }
{
    let n = nodes as usize;
    if high <= low {
        return Err(Reason { number: 7, place });
    }
    if n <= high {
        return Err(Reason { number: 6, place });
    }
    if follows(prev.low as usize, prev.high as usize, low, high) {
        return Ok(());
    }
    Err(Reason { number: 8, place })
}

// The mesh checks on the parts of a mesh: 3, 4; each link 7, 6, 8; then 13.
#[tactic(auto, unfolding(crate::specs::Parts::parts_answer))]
pub fn parts_answer(nodes: u8, count: u16, zeros: bool, ends: &[u16; 256]) -> Result<(), Reason>
    ensures { result ≡ parts_answer nodes count zeros ends.now }
{
    if !nodes_fit(nodes) {
        return Err(Reason {
            number: 3,
            place: 0,
        });
    }
    if !count_fits(count) {
        return Err(Reason {
            number: 4,
            place: 0,
        });
    }
    in_turn::ends_in_turn(nodes, count as usize, ends)?;
    if zeros {
        return Ok(());
    }
    Err(Reason {
        number: 13,
        place: 0,
    })
}

// The mesh checks.
pub fn check(m: Mesh) -> Result<(), Reason>
    ensures answer { result ≡ mesh_answer m }
    ensures ranges { InRange m }
{
    let mut ends = [0u16; 256];
    let zeros = split(&m, &mut ends);
    parts_answer(m.nodes, m.count, zeros, &ends)
}
