// A script: a list of calls on a session. The list is made on two copies of it: on one by value, and on the other in place where the
// call has that form. Lines of the second begin with `in_place`.
use books::written::MOST_BYTES;
use clients::session::{begin, start};
use mesh::{Mesh, Plan};
use records::digest::show_digest;
use records::session::{read_plan, read_session};
use recovery::Session;
use replies::form;
use replies::session::show_session;
use script::run_calls;
use streams::input::{next_byte, next_bytes, next_two};
use streams::print::{answer_line, line};

pub(crate) fn run_script(case: u64) {
    let m = read_mesh();
    line(b"script", case);
    run_list(first_session(m));
}

// The calls that come next, and both copies of the session at the end.
pub(crate) fn run_list(s: Session) {
    let copies = run_calls(s, next_two(), true);
    show_whole(copies.by_value, false);
    if let Some(in_place) = copies.in_place {
        show_whole(in_place, true);
    }
}

// The mesh of the book that comes next.
fn read_mesh() -> Mesh {
    let mut space = [0u8; MOST_BYTES];
    let came = next_bytes(&mut space, usize::from(next_two()));
    codec::decode(&space[..came]).mesh
}

// Started on the mesh's own plan, started on a plan that is given, or given whole.
fn first_session(m: Mesh) -> Session {
    match next_byte() {
        0 => own_plan(m),
        1 => started(m, read_plan()),
        _ => read_session(m),
    }
}

fn own_plan(m: Mesh) -> Session {
    let begun = begin(m);
    answer_line(b"start", begun.starting);
    begun.session
}

pub(crate) fn started(m: Mesh, plan: Plan) -> Session {
    let started = start(m, plan);
    answer_line(b"start", started.answer);
    started.session
}

// The session: 256 states of each wavelength, and the digest of its mesh and plan.
pub(crate) fn show_whole(s: Session, lent: bool) {
    show_session(s, lent, 256);
    form(lent);
    show_digest(s);
}
