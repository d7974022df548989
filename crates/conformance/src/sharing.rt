// A duct query: the links that share the duct of a link.
use crate::record::read_record;
use clients::duct::sharing;
use streams::input::next_two;
use streams::print::{answer_line, end, line, number, word};

// The most entries that are lent.
const MOST_ENTRIES: usize = 300;

// A mesh record and a link, asked with `room` entries 42405, at most 300, which are shown afterwards.
pub(crate) fn run_sharing(case: u64) {
    line(b"ducts", case);
    let room = usize::from(next_two());
    let link = next_two();
    let m = read_record();
    let mut space = [42405u16; MOST_ENTRIES];
    if let Some(out) = space.get_mut(..room) {
        let shared = sharing(m, link, out);
        answer_line(b"sharing", shared.answer);
        line(b"count", shared.count as u64);
        show_entries(out);
    }
}

fn show_entries(entries: &[u16]) {
    word(b"out");
    for k in entries {
        number(u64::from(*k));
    }
    end();
}
