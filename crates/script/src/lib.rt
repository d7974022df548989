// The calls of a script (docs/CORPUS.md), read from standard input and made as lists by `lists::make_calls`. A route query,
// which is no call of such a list, ends one. Each list is made by value on one copy of the session and, where it is asked for, on a second one in place
// where the call has that form.
#![tactic(auto)]

mod held;
mod made;

use crate::held::Held;
use crate::made::{make_held, show_routes};
use recovery::Session;
use streams::input::next_byte;

// The most calls of one list.
pub(crate) const MOST_CALLS: usize = 4096;

// The letter of a route query.
const QUERY: u8 = b'Q';

// The copy of the session on which the calls are made by value, and that on which they are made in place, where there is one.
#[derive(Clone, Copy)]
pub struct Copies {
    pub by_value: Session,
    pub in_place: Option<Session>,
}

// Reads so many calls, makes them on a session, and shows their answers: those of the calls by value, or of both copies.
pub fn run_calls(s: Session, calls: u16, both: bool) -> Copies {
    let mut copies = Copies {
        by_value: s,
        in_place: if both { Some(s) } else { None },
    };
    let mut held = Held::new();
    for _ in 0..calls {
        let letter = next_byte();
        if letter == QUERY {
            copies = make_held(copies, &mut held);
            show_routes(copies);
        } else {
            held.hold(letter);
            if held.is_full() {
                copies = make_held(copies, &mut held);
            }
        }
    }
    make_held(copies, &mut held)
}
