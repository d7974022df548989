// The job that collects from each node in turn.
use crate::repeats::last_of;
use mesh::{Mesh, Reason};
use streams::print::{answer, number, word};

// The entries of the longest route, that over 64 nodes.
const MOST_ENTRIES: usize = 127;

// A route from each root in turn. The line has something of all that the last one gave, so that no compiler can take any of it out.
pub(crate) fn collect_job(m: Mesh, repeats: u32) -> Result<(), Reason> {
    let mut nodes = [0u8; MOST_ENTRIES];
    let c = last_of!(repeats, i => collection::collect(m, root_in(i, m.nodes), &mut nodes));
    word(b"B");
    answer(c.answer);
    if let Ok(()) = c.answer {
        number(c.count as u64);
        number(c.tree.iter().filter(|is_tree| **is_tree).count() as u64);
        number(weighted_sum(&nodes, c.count));
    }
    Ok(())
}

// The root of a repeat: each node in turn.
fn root_in(repeat: u32, nodes: u8) -> u8 {
    if nodes == 0 {
        return 0;
    }
    (repeat % u32::from(nodes)) as u8
}

// The sum of the first so many nodes, each times its position counted from 1, so that their order counts too.
fn weighted_sum(nodes: &[u8; MOST_ENTRIES], count: usize) -> u64 {
    let mut sum: u64 = 0;
    for i in 0..count.min(MOST_ENTRIES) {
        sum += (i as u64 + 1) * u64::from(nodes[i]);
    }
    sum
}
