// Reads a book and a root from standard input, and prints the collection route from that root and the links of its tree
// (docs/CORPUS.md, the program bus). A refusal of reading or of the route is the only line.
#![tactic(auto)]

use books::entries::show_link;
use clients::route::collect;
use given::next_mesh;
use mesh::{Mesh, Reason};
use streams::input::next_byte;
use streams::print::{answer, end, field, number, numbers};

// The entries of the longest route, that over 64 nodes.
const MOST_ENTRIES: usize = 127;

fn main() {
    if let Some(m) = next_mesh() {
        show_collected(&m, next_byte());
    }
}

// The answer with the number of entries, the route, and a line for each tree link.
fn show_collected(m: &Mesh, root: u8) {
    let mut nodes = [0u8; MOST_ENTRIES];
    let c = collect(*m, root, &mut nodes);
    field(b"collect", root as u64);
    answer(c.answer);
    let Ok(()) = c.answer else {
        end();
        return;
    };
    number(c.count as u64);
    end();
    numbers(b"route", &nodes[..c.count.min(MOST_ENTRIES)]);
    for (k, is_tree) in c.tree.iter().enumerate() {
        if *is_tree {
            show_link(k as u64, m.links[k], m.ducts[k]);
        }
    }
}
