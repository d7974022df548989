// A survey: the parts of a mesh and its bridging links.
use crate::arrays::{show_marked, show_rest};
use crate::record::read_record;
use mesh::Reason;
use streams::print::{answer_line, end, line, number, word};

// A mesh record, surveyed.
pub(crate) fn run_survey(case: u64) {
    line(b"survey-of-mesh", case);
    let m = read_record();
    let s = bridges::survey(m);
    answer_line(b"survey", s.answer);
    show_parts(&s.parts, nodes_of(s.answer, m.nodes));
    show_marked(b"bridges", &s.bridges, |mark| *mark == 1);
}

// The number of nodes, none on a refusal.
fn nodes_of(a: Result<(), Reason>, nodes: u8) -> usize {
    match a {
        Ok(()) => usize::from(nodes),
        _ => 0,
    }
}

// The part of each node, then how many entries past the last node are not zero.
fn show_parts(parts: &[u8; 64], nodes: usize) {
    let (of_nodes, past) = parts.split_at(nodes.min(64));
    word(b"parts");
    for p in of_nodes {
        number(u64::from(*p));
    }
    end();
    show_rest(past);
}
