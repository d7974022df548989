// The walk of a depth-first search: visiting a node and following its links call each other.
ghost use Rattle.std.specs.Prelude.{◌≡◌, length, take, replicate, ◌+◌, ◌≤◌, ◌<◌, set};
ghost use Rattle.mesh.specs.WellFormed.{WellFormed};
ghost use Rattle.collection.specs.Collection.{no_labels};
ghost use Rattle.collection.specs.Walked.{MayVisit, MayFollow, Visits, Follows, unwalked, WalkedFrom};

use crate::arcs::Arcs;
use mesh::Mesh;

// Which nodes are visited, which links are labelled tree, and the route with the number of its entries that are written.
#[derive(Clone, Copy, Debug, PartialEq, Eq)]
pub(crate) struct Walk {
    seen: [bool; 64],
    pub tree: [bool; 256],
    route: [u8; 127],
    pub count: usize,
}

impl Walk {
    // Before the walk.
    pub(crate) fn new() -> Walk
        ensures { result ≡ unwalked }
    {
        Walk {
            seen: [false; 64],
            tree: [false; 256],
            route: [0; 127],
            count: 0,
        }
    }

    // Walks from the root of a mesh.
    pub(crate) fn walk_from(&mut self, m: &Mesh, root: u8)
        requires root_value { WellFormed m.now × (root < m.now.nodes) }
        requires start { self.old ≡ unwalked }
        ensures { WalkedFrom m.now root no_labels (replicate 127 0) self.new.count self.new.tree self.new.route }
    {
        let mut arcs = Arcs {
            links: m.count as usize,
            next: [512; 576],
            to: [0; 512],
        };
        arcs.chain_all(m);
        self.visit(&arcs, root);
    }

    // The entries that are written.
    pub(crate) fn entries(&self) -> &[u8]
        requires { self.now.count ≤ length self.now.route }
        ensures { result.now ≡ take self.now.count self.now.route }
    {
        &self.route[..self.count]
    }

    // Writes a node after what was written.
    fn write(&mut self, u: u8)
        requires { self.old.count < 127 }
        ensures { self.new ≡ record self.old { route = set self.old.route self.old.count u; count = self.old.count + 1 } }
    {
        self.route[self.count] = u;
        self.count += 1;
    }

    // Visits the new node u: marks it, writes it, and tries its links.
    #[cycle(follow_visit)]
    fn visit(&mut self, arcs: &Arcs, u: u8)
        requires { MayVisit arcs.now u self.old }
        ensures { Visits arcs.now u self.old self.new }
    {
        self.seen[u as usize] = true;
        self.write(u);
        self.follow(arcs, u, arcs.first(u));
    }

    // Tries the links of u from that of `arc` on: the first that leads to a new node is labelled, that node is visited, and u is written again.
    #[cycle(follow_visit)]
    fn follow(&mut self, arcs: &Arcs, u: u8, arc: usize)
        requires { MayFollow arcs.now u arc self.old }
        ensures { Follows arcs.now u arc self.old self.new }
    {
        if let Some(a) = arcs.next_new(arc, &self.seen) {
            self.tree[a / 2] = true;
            let v = arcs.to[a];
            self.visit(arcs, v);
            self.write(u);
            let later = arcs.next[a] as usize;
            self.follow(arcs, u, later);
        }
    }
}
