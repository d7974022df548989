// The survey of a mesh: into which parts it falls, and which links it cannot lose. It names all that stands behind refusals 20 and 21, which name the first alone.
#![tactic(auto)]

ghost use Rattle.std.specs.Prelude.{◌<◌, ◌≤◌, ◌≡◌};
ghost use Rattle.mesh.specs.Answer.{Accepted};
ghost use Rattle.mesh.specs.Mesh.{mesh_answer};
ghost use Rattle.graph.specs.Net.{Net, Fits, both_ways};
ghost use Rattle.graph.specs.Greedy.{bridge};
ghost use Rattle.nets.specs.Nets.{net_of, Table};
ghost use Rattle.bridges.specs.Survey.{part_of, parts_by, bridges_of, no_parts, no_bridges, surveyed};

use mesh::{Mesh, Reason};
use rows::Rows;

// What the survey gives: for each node the lowest node of its part, 0 past the last node; for each link 1 where it parts the mesh, or its own part of a mesh that is
// apart, else 0, and 0 past the last link. On a refusal all zeros.
// form: no Result, since on a refusal parts and bridges are all zeros, which the clause of `survey` and the theorem `survey_refused` say of this record.
#[derive(Clone, Copy)]
pub struct Surveyed {
    pub parts: [u8; 64],
    // form: bytes for booleans, since the theorems `survey_bridges` and `survey_else` say 1 or 0, and C reads the array.
    pub bridges: [u8; 256],
    pub answer: Result<(), Reason>,
}

fn refused(answer: Result<(), Reason>) -> Surveyed
    ensures { result ≡ record { parts = no_parts; bridges = no_bridges; answer = answer } }
{
    Surveyed {
        parts: [0u8; 64],
        bridges: [0u8; 256],
        answer,
    }
}

// The lowest of so many nodes to which a walk from v along the rows comes.
fn part_of(nodes: u8, table: &Rows, v: u8) -> u8
    requires { (nodes ≤ 64) × (v < nodes) }
    ensures { (G : Net) → Fits G → nodes ≡ G.nodes → Table G both_ways table.now.0 → result ≡ part_of G v }
{
    let reached = table.spread(v);
    (0..nodes).find(|u| rows::has_node(reached, *u)).unwrap()
}

// The part of each node.
fn all_parts(nodes: u8, table: &Rows) -> [u8; 64]
    requires { nodes ≤ 64 }
    ensures { (G : Net) → Fits G → nodes ≡ G.nodes → Table G both_ways table.now.0 → result ≡ parts_by G }
{
    let mut parts = [0u8; 64];
    for v in 0..nodes {
        parts[v as usize] = part_of(nodes, table, v);
    }
    parts
}

// Whether no walk leads from one end of link k to the other without it.
fn is_bridge(m: &Mesh, k: usize) -> bool
    requires { k < 256 }
    ensures { mesh_answer m.now ≡ Accepted → k < m.now.count → result ≡ bridge (net_of m.now) k }
{
    let table = nets::ways(m, Some(k));
    let l = m.links[k];
    let reached = table.spread(l.low);
    !rows::has_node(reached, l.high)
}

// The same for each link, 1 where it is so.
fn all_bridges(m: &Mesh) -> [u8; 256]
    ensures { mesh_answer m.now ≡ Accepted → result ≡ bridges_of m.now }
{
    let links = (m.count as usize).min(256);
    let mut bridges = [0u8; 256];
    for k in 0..links {
        bridges[k] = u8::from(is_bridge(m, k));
    }
    bridges
}

// All parts and all bridging links of a mesh. It refuses by the mesh checks alone.
pub fn survey(m: Mesh) -> Surveyed
    ensures { result ≡ surveyed m }
{
    let answer = mesh::check(m);
    let Ok(()) = answer else {
        return refused(answer);
    };
    let table = nets::ways(&m, None);
    let parts = all_parts(m.nodes, &table);
    let bridges = all_bridges(&m);
    Surveyed {
        parts,
        bridges,
        answer,
    }
}
