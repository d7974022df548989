// The lines of calls, from the numbers of their answers (crates/call/specs/Record.antt).
use crate::form;
use call::Numbers;
use streams::print::{end, field, number, refused, word};

// A call, by its letter and its number, and its answer.
pub fn show_call(letter: u8, n: u32, lent: bool, answer: Numbers) {
    form(lent);
    // form: a match on a byte, since a call comes with its letter as make_calls took it.
    match letter {
        b'C' => field(b"cut", link_in(n)),
        b'D' => named(b"deliver", n),
        b'M' => field(b"mend", link_in(n)),
        b'R' => field(b"run", u64::from(n)),
        _ => named(b"status", n),
    }
    show_answer(answer);
    end();
}

// The link that the number of a cut or a mend says.
fn link_in(n: u32) -> u64 {
    u64::from(n % 65536)
}

// A word, then the link and the wavelength that a number says: link × 256 + wavelength.
fn named(text: &[u8], n: u32) {
    field(text, link_in(n / 256));
    number(u64::from(n % 256));
}

fn show_answer(a: Numbers) {
    // form: numbers for the cases, since the answers come as numbers from the slice that make_calls filled.
    match a.case {
        0 => refused(a.first, a.second),
        1 => word(b" accepted"),
        2 => field(b" taken", a.first),
        3 => field(b" turned", a.first),
        4 => field(b" released", a.first),
        5 => made(a.first, a.second),
        6 => measured(a.first, a.second, a.third),
        _ => unmeasured(a.first, a.second),
    }
}

fn made(count: u64, rest: u64) {
    field(b" made", count);
    word(if rest == 1 { b" rest" } else { b" moving" });
}

fn measured(state: u64, under_way: u64, metres: u64) {
    field(b" state", state);
    field(b" busy", under_way);
    field(b" route", metres);
}

fn unmeasured(state: u64, under_way: u64) {
    field(b" state", state);
    field(b" busy", under_way);
    word(b" route -");
}
