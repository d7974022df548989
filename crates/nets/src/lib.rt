// The links of a mesh as rows of digits, and the search behind refusal 20.
#![tactic(auto)]

ghost use Rattle.std.specs.Prelude.{◌≡◌, min};
ghost use Rattle.nets.specs.Nets.{rows_of, Finds};

use mesh::Mesh;
use rows::Rows;

// The links, but for one that may be left out, open both ways.
pub fn ways(m: &Mesh, gap: Option<usize>) -> Rows
    ensures { result.0 ≡ rows_of m.now gap (min m.now.count 256) }
{
    let links = (m.count as usize).min(256);
    let mut table = Rows([0u64; 64]);
    for k in 0..links {
        if gap != Some(k) {
            let l = m.links[k];
            table.put_arc(l.low, l.high);
            table.put_arc(l.high, l.low);
        }
    }
    table
}

// The lowest of so many nodes that node 0 does not reach.
pub fn lowest_unreached(nodes: u8, table: &Rows) -> Option<u8>
    ensures { Finds nodes table.now.0 result }
{
    let reached = table.spread(0);
    (0..nodes).find(|v| !rows::has_node(reached, *v))
}
