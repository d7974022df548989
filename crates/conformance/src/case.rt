// One case of the corpus: a book, a book to list, a mesh record, a mesh to plan, a script, an old session, a duct query, a collection route, a
// drill's input or mesh, or a survey.
use crate::book::{run_book, run_listed};
use crate::calls::run_script;
use crate::collecting::run_collection;
use crate::drills::{run_drill, run_input};
use crate::old_session::run_upgrade;
use crate::planning::run_planning;
use crate::record::run_mesh;
use crate::sharing::run_sharing;
use crate::surveying::run_survey;
use streams::input::STDIN_FILENO;

// Reads the next case, prints its answers, and says whether there was one.
pub(crate) fn run_case(case: u64) -> bool {
    let mut kind = [0u8; 1];
    io::read_full(STDIN_FILENO, &mut kind) == 1 && run_kind(kind[0], case)
}

// form: a match, since a letter of the corpus names the case; a table of functions by letter would be searched and say no more.
fn run_kind(kind: u8, case: u64) -> bool {
    match kind {
        b'B' => run_book(case),
        b'C' => run_collection(case),
        b'D' => run_sharing(case),
        b'H' => run_input(case),
        b'L' => run_listed(case),
        b'M' => run_mesh(case),
        b'N' => run_drill(case),
        b'P' => run_planning(case),
        b'S' => run_script(case),
        b'U' => run_upgrade(case),
        b'V' => run_survey(case),
        _ => return false,
    }
    true
}
