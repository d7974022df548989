// The taken links of a flood in a row, on arcs that are lent.
ghost use Rattle.std.specs.Prelude.{◌≡◌, ℕ};
ghost use Rattle.flood.specs.Lent.{graph_on};
ghost use Rattle.flooding.specs.Ended.{followed};

use flood::{Arcs, Flood, Route};
use states::links_of;

// From the source on, each the lowest taken link that leaves the node where the one before ended, at most as many as there are links.
pub fn follow(arcs: &Arcs, flood: &Flood) -> Route
    ensures { (n : ℕ) → result ≡ followed (graph_on n arcs.now) arcs.now.source flood.now.states }
{
    let links = links_of(arcs.count);
    let mut row = [0u16; 256];
    let mut node = arcs.source;
    for n in 0..links {
        let i = searches::lowest_taken(&arcs.tails, &flood.states, arcs.count, node);
        if links <= i {
            return Route {
                links: row,
                length: n as u16,
            };
        }
        row[n] = i as u16;
        node = arcs.heads[i];
    }
    Route {
        links: row,
        length: links as u16,
    }
}
