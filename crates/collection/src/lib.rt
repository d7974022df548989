// The collection route: from a root the walk of a depth-first search, which meets every node and comes back (02, request 5).
#![tactic(auto)]

ghost use Rattle.std.specs.Prelude.{◌≡◌, true, length};
ghost use Rattle.scan.specs.Lowest.{any};
ghost use Rattle.graph.specs.Plan.{unreached};
ghost use Rattle.mesh.specs.Answer.{Accepted};
ghost use Rattle.mesh.specs.Mesh.{mesh_answer};
ghost use Rattle.nets.specs.Nets.{net_of};
ghost use Rattle.collection.specs.Collection.{no_labels, apart_at, collected, output_after};

mod arcs;
mod walk;

use mesh::{Mesh, Reason};
use walk::Walk;

// What the call gives: whether each link is one of the tree, which none past the last link is, and how many entries were written; on a refusal no link is, and no
// entry was written.
// form: no Result, since a refusal has no labels and counts no entry, which the clause of `collect` and the theorem `collection_refused` say of this record.
#[derive(Clone, Copy)]
pub struct Collected {
    pub tree: [bool; 256],
    pub count: usize,
    pub answer: Result<(), Reason>,
}

fn refused(answer: Result<(), Reason>) -> Collected
    ensures { result ≡ record { tree = no_labels; count = 0; answer = answer } }
{
    Collected {
        tree: [false; 256],
        count: 0,
        answer,
    }
}

// The place of 20, which is planning's.
fn apart(m: &Mesh) -> usize
    requires { (mesh_answer m.now ≡ Accepted) × (any (unreached (net_of m.now)) m.now.nodes ≡ true) }
    ensures { result ≡ apart_at m.now }
{
    let table = nets::ways(m, None);
    nets::lowest_unreached(m.nodes, &table).unwrap() as usize
}

// 02's collection route: the nodes in the order in which the walk from the root meets them, the root first and last, at the front of out, and the links of its tree
// labelled. The mesh checks; 6 for a root that is no node; 20, where the walk does not meet every node; then 11 with the entries needed. Entries past the route stay
// as they were, and all of out on a refusal: so the walk has a route of its own.
pub fn collect(m: Mesh, root: u8, out: &mut [u8]) -> Collected
    ensures answer { result ≡ collected m root (length out.old) }
    ensures output { out.new ≡ output_after m root out.old }
{
    let a = mesh::check(m);
    let Ok(()) = a else {
        return refused(a);
    };
    if m.nodes <= root {
        return refused(Err(Reason {
            number: 6,
            place: 0,
        }));
    }
    let mut walk = Walk::new();
    walk.walk_from(&m, root);
    let needed = 2 * (m.nodes as usize) - 1;
    if walk.count < needed {
        return refused(Err(Reason {
            number: 20,
            place: apart(&m),
        }));
    }
    if out.len() < needed {
        return refused(Err(Reason {
            number: 11,
            place: needed,
        }));
    }
    let route = walk.entries();
    out[..route.len()].copy_from_slice(route);
    Collected {
        tree: walk.tree,
        count: walk.count,
        answer: Ok(()),
    }
}
