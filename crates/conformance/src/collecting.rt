// A collection route: the walk from a root over every node, and the links of its tree.
use crate::arrays::show_marked;
use crate::record::read_record;
use clients::route::collect;
use streams::input::{next_byte, next_two};
use streams::print::{answer_line, line, numbers};

// The most entries that are lent.
const MOST_ENTRIES: usize = 300;

// A mesh record and a root, asked with `room` entries 165, at most 300, which are shown afterwards.
pub(crate) fn run_collection(case: u64) {
    line(b"collection", case);
    let room = usize::from(next_two());
    let root = next_byte();
    let m = read_record();
    let mut space = [165u8; MOST_ENTRIES];
    if let Some(out) = space.get_mut(..room) {
        let c = collect(m, root, out);
        answer_line(b"collect", c.answer);
        line(b"count", c.count as u64);
        show_marked(b"tree", &c.tree, |is_tree| *is_tree);
        numbers(b"out", out);
    }
}
