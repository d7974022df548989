// The heaviest drill: what an input asks for, and the mesh with so many middle nodes.
use crate::record::show_record;
use streams::input::{next_byte, next_bytes, next_two};
use streams::print::{end, field, line, number, word};

// The longest input of the corpus.
const MOST_INPUT: usize = 300;

// An input, and the number of middle nodes that it asks for.
pub(crate) fn run_input(case: u64) {
    line(b"drill-input", case);
    let mut space = [0u8; MOST_INPUT];
    let came = next_bytes(&mut space, usize::from(next_two()));
    show_asked(heaviest::read(&space[..came]));
}

fn show_asked(asked: Option<u8>) {
    match asked {
        Some(m) => line(b"asked", u64::from(m)),
        None => word(b"asked refused\n"),
    }
}

// A number of middle nodes, and the drill's mesh as a mesh record is shown.
pub(crate) fn run_drill(case: u64) {
    let room = usize::from(next_two());
    let middles = next_byte();
    field(b"drill-mesh", case);
    number(u64::from(middles));
    end();
    show_record(heaviest::drill(middles), room);
}
