// The lines of a session at the end of a script, and of a route query.
use crate::form;
use flood::{Flood, Route};
use mesh::Reason;
use recovery::Session;
use streams::print::{answer, digits, end, field, number, word};

// The cut, and of each wavelength the states of the first `links` links and the reached nodes.
pub fn show_session(s: Session, lent: bool, links: u16) {
    form(lent);
    show_cut(s.cut);
    show_flood(&s.first, 1, lent, links);
    show_flood(&s.second, 2, lent, links);
}

fn show_flood(flood: &Flood, wavelength: u64, lent: bool, links: u16) {
    form(lent);
    field(b"states", wavelength);
    show_states(&flood.states, usize::from(links));
    form(lent);
    field(b"reached", wavelength);
    show_reached(&flood.reached);
}

fn show_cut(cut: Option<u16>) {
    match cut {
        Some(k) => field(b"cut-is", u64::from(k)),
        None => word(b"cut none"),
    }
    end();
}

fn show_states(states: &[u8; 256], links: usize) {
    word(b" ");
    for state in states.iter().take(links) {
        if *state < 5 {
            digits(u64::from(*state));
        } else {
            word(b"?");
        }
    }
    end();
}

fn show_reached(reached: &[bool; 64]) {
    for (v, is_reached) in reached.iter().enumerate() {
        if *is_reached {
            number(v as u64);
        }
    }
    end();
}

// The line of a route query: its wavelength and its answer, then the links of an accepted one.
pub fn show_route(lent: bool, wavelength: u8, a: Result<(), Reason>, route: Route) {
    form(lent);
    field(b"route", u64::from(wavelength));
    answer(a);
    for k in route.links.iter().take(usize::from(route.length)) {
        number(u64::from(*k));
    }
    end();
}
