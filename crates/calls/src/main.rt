// Reads a book and calls from standard input, starts a session on the book's mesh and its plan, makes the calls by value, and prints
// their answers and the session at the end (docs/CORPUS.md, the program calls). A refusal of reading or planning is the only line.
#![tactic(auto)]

use clients::session::begin;
use given::next_mesh;
use mesh::{Mesh, Reason};
use replies::session::show_session;
use script::run_calls;
use streams::input::next_two;
use streams::print::answer_line;

fn main() {
    if let Some(m) = next_mesh() {
        run_on(m);
    }
}

// Plans the mesh, and makes the calls on a session that is started on it.
fn run_on(m: Mesh) {
    let begun = begin(m);
    let Ok(()) = begun.planning else {
        answer_line(b"plan", begun.planning);
        return;
    };
    answer_line(b"start", begun.starting);
    let copies = run_calls(begun.session, next_two(), false);
    show_session(copies.by_value, false, m.count);
}
