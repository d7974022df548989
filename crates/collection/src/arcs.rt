// The arcs of a mesh's links, two for each: arc 2 i leads along link i from its low end, arc 2 i + 1 from its high end. A table chains the arcs that leave a node
// by rising number: entry a is the arc after arc a, and entry HEADS + u the first that leaves node u; one that is no arc is the chain's end.
ghost use Rattle.std.specs.Prelude.{◌≡◌, set, replicate, ◌+◌, ◌<◌};
ghost use Rattle.scan.specs.Entry.{at};
ghost use Rattle.mesh.specs.WellFormed.{WellFormed};
ghost use Rattle.collection.specs.Arcs.{Chained};
ghost use Rattle.collection.specs.Walked.{net_in, CanTry, Next};

use mesh::Mesh;

const HEADS: usize = 512;

// The number of links, the table that chains their arcs, and the node to which each arc leads.
#[derive(Clone, Copy, Debug, PartialEq, Eq)]
pub(crate) struct Arcs {
    pub links: usize,
    pub next: [u16; 576],
    pub to: [u8; 512],
}

impl Arcs {
    // Chains all arcs of the mesh, from the last link down, in tables without arcs.
    pub(crate) fn chain_all(&mut self, m: &Mesh)
        requires formed { WellFormed m.now }
        requires empty { self.old ≡ record { links = m.now.count; next = replicate 576 512; to = replicate 512 0 } }
        ensures links { self.new.links ≡ m.now.count }
        ensures chained { Chained m.now self.new.next self.new.to }
    {
        for i in (0..self.links).rev() {
            let l = m.links[i];
            self.chain(2 * i, l.low, l.high);
            self.chain(2 * i + 1, l.high, l.low);
        }
    }

    // Puts arc a, which leads from one node to another, before the arcs that leave the first.
    fn chain(&mut self, a: usize, from: u8, far: u8)
        requires { (a < 512) × (from < 64) }
        ensures { self.new ≡ record self.old { next = set (set self.old.next a (at self.old.next (512 + from))) (512 + from) a; to = set self.old.to a far } }
    {
        let head = HEADS + from as usize;
        self.to[a] = far;
        self.next[a] = self.next[head];
        self.next[head] = a as u16;
    }

    // The first arc that leaves u.
    pub(crate) fn first(&self, u: u8) -> usize
        requires { u < 64 }
        ensures { result ≡ at self.now.next (512 + u) }
    {
        self.next[HEADS + u as usize] as usize
    }

    // The arc from `arc` on, in the chain of its node, that leads to a new node first.
    pub(crate) fn next_new(&self, arc: usize, seen: &[bool; 64]) -> Option<usize>
        requires { CanTry (net_in self.now) self.now.next }
        ensures { Next (net_in self.now) seen.now arc result }
    {
        let mut a = arc;
        while a / 2 < self.links {
            if !seen[self.to[a] as usize] {
                return Some(a);
            }
            a = self.next[a] as usize;
        }
        None
    }
}
