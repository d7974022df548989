// The lines of calls and of sessions (docs/CORPUS.md, lines of a script).
#![tactic(auto)]

pub mod reply;
pub mod session;

use streams::print::word;

// The beginning of a line about the session on which calls are made in place.
pub fn form(lent: bool) {
    if lent {
        word(b"in-place ");
    }
}
