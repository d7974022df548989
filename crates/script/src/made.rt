// A list of calls made on both copies, and its lines.
ghost use Rattle.std.specs.Prelude.{◌≡◌};

use crate::held::Held;
use crate::{Copies, MOST_CALLS};
use call::Numbers;
use clients::session::route;
use lists::make_calls;
use recovery::Session;
use replies::reply::show_call;
use replies::session::show_route;
use streams::input::next_byte;

// The answers of a list of calls, four numbers each.
type Answers = [[u64; 4]; MOST_CALLS];

// Makes the calls that are held on the copies, and shows their answers. None is held then.
pub(crate) fn make_held(copies: Copies, held: &mut Held) -> Copies
    ensures { held.new ≡ 0 }
{
    let mut by_value: Answers = [[0; 4]; MOST_CALLS];
    let mut in_place: Answers = [[0; 4]; MOST_CALLS];
    let made = Copies {
        by_value: make_list(
            copies.by_value,
            held.letters(),
            held.numbers(),
            &mut by_value,
        ),
        in_place: copies.in_place.map(|s| make_list(s, held.lent(), held.numbers(), &mut in_place)),
    };
    show_calls(held, &by_value, &in_place, copies.in_place.is_some());
    held.clear();
    made
}

// Makes a list of calls on one copy, and stores their answers.
fn make_list(s: Session, letters: &[u8], numbers: &[u32], answers: &mut Answers) -> Session {
    make_calls(s, letters, numbers, answers.as_flattened_mut())
}

// The line of each call by value and, where both are shown, behind it that of the call in place.
fn show_calls(held: &Held, by_value: &Answers, in_place: &Answers, both: bool) {
    let calls = held.letters().iter().zip(held.numbers());
    let answers = by_value.iter().zip(in_place);
    for ((letter, n), (by_value, in_place)) in calls.zip(answers) {
        show_answer(*letter, *n, false, by_value);
        if both {
            show_answer(*letter, *n, true, in_place);
        }
    }
}

fn show_answer(letter: u8, n: u32, lent: bool, answer: &[u64; 4]) {
    let [case, first, second, third] = *answer;
    let answer = Numbers {
        case,
        first,
        second,
        third,
    };
    show_call(letter, n, lent, answer);
}

// A route query on the copies: its wavelength comes next.
pub(crate) fn show_routes(copies: Copies) {
    let wavelength = next_byte();
    show_query(copies.by_value, wavelength, false);
    if let Some(in_place) = copies.in_place {
        show_query(in_place, wavelength, true);
    }
}

fn show_query(s: Session, wavelength: u8, lent: bool) {
    let routed = route(s, wavelength);
    show_route(lent, wavelength, routed.answer, routed.route);
}
