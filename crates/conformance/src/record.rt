// A mesh record: checked, encoded, planned, and a session started on it and its plan.
use crate::calls::started;
use crate::planning::show_plan;
use books::written::show_written;
use mesh::Mesh;
use records::digest::show_digest;
use records::entries::read_entries;
use streams::input::{next_byte, next_two};
use streams::print::line;

pub(crate) fn run_mesh(case: u64) {
    line(b"record-of-mesh", case);
    let room = usize::from(next_two());
    show_record(read_record(), room);
}

// Checks m, encodes it into `room` bytes, plans it, and starts on it and its plan.
pub(crate) fn show_record(m: Mesh, room: usize) {
    show_written(m, room);
    let plan = show_plan(m);
    show_digest(started(m, plan));
}

// The mesh of the entries that come next.
pub(crate) fn read_record() -> Mesh {
    let mut m = mesh::zero_mesh();
    m.nodes = next_byte();
    m.count = next_two();
    read_entries(m, next_two())
}
