// A mesh to plan.
use crate::arrays::show_rest;
use mesh::{Mesh, Plan};
use records::entries::read_ends;
use streams::input::{next_byte, next_two};
use streams::print::{answer_line, digits, end, field, number, word};

// A mesh with these ends alone, and its plan.
pub(crate) fn run_planning(case: u64) {
    let mut m = mesh::zero_mesh();
    m.nodes = next_byte();
    m.count = next_two();
    field(b"planning", case);
    number(u64::from(m.nodes));
    number(u64::from(m.count));
    end();
    show_plan(read_ends(m, m.count));
}

// Plans m, and shows the answer and the plan.
pub(crate) fn show_plan(m: Mesh) -> Plan {
    let planned = planner::plan(m);
    answer_line(b"plan", planned.answer);
    show_directions(&planned.plan.directions, usize::from(m.count));
    planned.plan
}

// A digit for each link, then how many directions past the last link are not zero.
fn show_directions(directions: &[u8; 256], count: usize) {
    let (of_links, past) = directions.split_at(count.min(256));
    word(b"directions");
    if !of_links.is_empty() {
        word(b" ");
    }
    for d in of_links {
        digits(u64::from(*d));
    }
    end();
    show_rest(past);
}
