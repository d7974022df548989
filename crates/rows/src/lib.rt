// Arcs between 64 nodes as rows of binary digits, and the walks along them. A second table can have the same arcs by the node that they enter.
// The number of a node counts modulo 64.
#![tactic(auto)]

ghost use Rattle.std.specs.Prelude.{◌≡◌, ◌≢◌, ◌%◌, ◌<◌, ◌^◌, ◌↔◌, IsTrue, ℕ, List};
ghost use Rattle.std.specs.Int.Bits.{bit_xor};
ghost use Rattle.scan.specs.Bits.{has};
ghost use Rattle.rows.specs.Rows.{Spread, Spreading, Searched, put, flip, cut, LinkDirected};

// The digit of a node.
fn digit(v: u8) -> u64
    ensures { result ≡ 2 ^ (v % 64) }
{
    1u64 << (v % 64)
}

// Whether v is one of the nodes.
#[tactic(auto, using(scan::specs::Bits::has_test))]
pub fn has_node(nodes: u64, v: u8) -> bool
    ensures { result ≡ has nodes (v % 64) }
{
    nodes & digit(v) != 0
}

// Row u has the digit v where an arc leads from u to v.
#[derive(Clone, Copy, Debug, PartialEq, Eq)]
pub struct Rows(pub [u64; 64]);

impl Rows {
    // The nodes that a walk from u comes to.
    pub fn spread(&self, u: u8) -> u64
        ensures { Spread self.now.0 (u % 64) result }
    {
        let mut search = Search::from_node(u);
        while !search.has_ended() {
            search.step(self);
        }
        search.seen
    }

    // Puts in the arc from a to b.
    #[tactic(auto, unfolding(crate::specs::Rows::put))]
    pub fn put_arc(&mut self, a: u8, b: u8)
        ensures { self.new.0 ≡ put self.old.0 (a % 64) (b % 64) }
    {
        self.0[(a % 64) as usize] |= digit(b);
    }

    // Takes out the arc from a to b where it is in, else puts it in.
    #[tactic(auto, unfolding(crate::specs::Rows::flip))]
    fn flip_arc(&mut self, a: u8, b: u8)
        ensures { self.new.0 ≡ flip self.old.0 (a % 64) (b % 64) }
    {
        self.0[(a % 64) as usize] ^= digit(b);
    }

    // Takes out the arcs between a and b of a link that is open both ways, but for those that another link with the same ends has: both where such a link
    // stands after it, the one from a to b where one stands before it.
    #[tactic(auto, unfolding(crate::specs::Rows::cut))]
    fn cut_link(&mut self, a: u8, b: u8, others: Parallel)
        ensures { self.new.0 ≡ cut self.old.0 (a % 64) (b % 64) others.before others.after }
    {
        if others.after {
            return;
        }
        self.flip_arc(b, a);
        if others.before {
            return;
        }
        self.flip_arc(a, b);
    }
}

// A search along arcs: the nodes that it has seen, and those of them whose arcs it has followed.
#[derive(Clone, Copy, Debug, PartialEq, Eq)]
struct Search {
    seen: u64,
    done: u64,
}

impl Search {
    fn from_node(u: u8) -> Search
        ensures { (rows : List ℕ) → Spreading rows (u % 64) result.seen result.done }
    {
        Search {
            seen: digit(u),
            done: 0,
        }
    }

    // Whether it has followed the arcs of all that it has seen.
    fn has_ended(&self) -> bool
        ensures { IsTrue result ↔ (bit_xor self.now.seen self.now.done ≡ 0) }
    {
        self.seen ^ self.done == 0
    }

    // Follows the arcs of one more node.
    fn step(&mut self, rows: &Rows)
        requires { bit_xor self.old.seen self.old.done ≢ 0 }
        ensures kept { (u : ℕ) → Spreading rows.now.0 u self.old.seen self.old.done → Spreading rows.now.0 u self.new.seen self.new.done }
        ensures grown { (u : ℕ) → Spreading rows.now.0 u self.old.seen self.old.done → self.old.done < self.new.done }
    {
        let v = (self.seen ^ self.done).trailing_zeros() as u8;
        self.seen |= rows.0[v as usize];
        self.done |= digit(v);
    }
}

// Whether links with the same ends stand before a link, open from low to high, and after it, open both ways.
#[derive(Clone, Copy, Debug, PartialEq, Eq)]
pub struct Parallel {
    pub before: bool,
    pub after: bool,
}

// Arcs by the node that they leave, and the same arcs by the node that they enter.
#[derive(Clone, Copy, Debug, PartialEq, Eq)]
pub struct Arcs {
    pub leaving: Rows,
    pub entering: Rows,
}

impl Arcs {
    // Whether a walk leads from u to v. Searches ahead from u and back from v, a node of each by turns, until the two meet or one of them ends.
    fn leads(&self, u: u8, v: u8) -> bool
        ensures { Searched self.now.leaving.0 self.now.entering.0 (u % 64) (v % 64) result }
    {
        let mut ahead = Search::from_node(u);
        let mut back = Search::from_node(v);
        while ahead.seen & back.seen == 0 {
            if ahead.has_ended() || back.has_ended() {
                return false;
            }
            ahead.step(&self.leaving);
            back.step(&self.entering);
        }
        true
    }

    // Puts in the arc from a to b.
    fn put_arc(&mut self, a: u8, b: u8)
        ensures leaving { self.new.leaving.0 ≡ put self.old.leaving.0 (a % 64) (b % 64) }
        ensures entering { self.new.entering.0 ≡ put self.old.entering.0 (b % 64) (a % 64) }
    {
        self.leaving.put_arc(a, b);
        self.entering.put_arc(b, a);
    }

    // Leaves a link that is open both ways open one way: 0 from its low end where a way leads back, else 1 where one leads on, else not at all.
    // form: a direction is a number, since it is stored in the plan, of which 01, the theorem `plan-accepted` and C read 0 and 1.
    pub fn direct(&mut self, low: u8, high: u8, others: Parallel) -> Option<u8>
        ensures { LinkDirected self.old.leaving.0 self.old.entering.0 (low % 64) (high % 64) others.before others.after
            result self.new.leaving.0 self.new.entering.0 }
    {
        self.leaving.cut_link(low, high, others);
        self.entering.cut_link(high, low, others);
        if self.leads(high, low) {
            self.put_arc(low, high);
            return Some(0);
        }
        if self.leads(low, high) {
            self.put_arc(high, low);
            return Some(1);
        }
        None
    }
}
