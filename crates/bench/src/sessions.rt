// Jobs on a session: a cut of the last link, and the others on a session in which it was just cut. A delivery and a status are wavelength 1's.
use crate::floods::{FIRST, lowest_under_way, second_at_rest};
use crate::job::{accepted, with_length};
use crate::repeats::last_of;
use mesh::{Mesh, Reason};
use recovery::{Delivered, Run, Session};
use status::LinkStatus;
use streams::print::{answer, field, number, word};

// Two sessions that a job takes by turns. The second has another length of link 0.
#[derive(Clone, Copy)]
struct Turns {
    even: Session,
    odd: Session,
}

impl Turns {
    // Those that `make` makes of the mesh.
    fn new<F: Fn(Mesh) -> Result<Session, Reason>>(m: Mesh, make: F) -> Result<Turns, Reason>
        requires { F.IsAlwaysCallable make }
    {
        Ok(Turns {
            even: make(m)?,
            odd: make(with_length(m, 0))?,
        })
    }

    // That of a repeat.
    fn at(&self, repeat: u32) -> &Session {
        if repeat % 2 == 0 {
            &self.even
        } else {
            &self.odd
        }
    }
}

// A fresh session on the plan; the planner's refusal where there is none.
fn fresh(m: Mesh) -> Result<Session, Reason> {
    let planned = planner::plan(m);
    accepted(Session::start(m, planned.plan).session, planned.answer)
}

// The session just after the cut of the last link.
fn just_cut(m: Mesh) -> Result<Session, Reason> {
    let cut = fresh(m)?.cut(last_link(m));
    accepted(cut.session, cut.answer)
}

// The session after an unhindered run.
fn at_rest(s: Session) -> Session {
    s.run(u32::MAX).session
}

// The number of the last link.
fn last_link(m: Mesh) -> u16 {
    m.count.saturating_sub(1)
}

pub(crate) fn cut_job(m: Mesh, repeats: u32) -> Result<(), Reason> {
    word(b"C");
    let link = last_link(m);
    let turns = Turns::new(m, fresh)?;
    let cut = last_of!(repeats, i => turns.at(i).cut(link));
    if is_accepted(cut.session) {
        answer(cut.answer);
    }
    Ok(())
}

pub(crate) fn run_job(m: Mesh, repeats: u32) -> Result<(), Reason> {
    word(b"R");
    show_run(Turns::new(m, just_cut)?, repeats);
    Ok(())
}

// A run with wavelength 2 at rest from the beginning.
pub(crate) fn run_of_first_job(m: Mesh, repeats: u32) -> Result<(), Reason> {
    word(b"S");
    let turns = Turns::new(m, |m| Ok(second_at_rest(just_cut(m)?)))?;
    show_run(turns, repeats);
    Ok(())
}

fn show_run(turns: Turns, repeats: u32) {
    let run = last_of!(repeats, i => turns.at(i).run(u32::MAX));
    number(u64::from(made_by(run)));
}

// Whether a session accepts a status. Makes use of the session, so that no compiler can take it out.
fn is_accepted(s: Session) -> bool {
    s.status(0, FIRST).is_ok()
}

// How many deliveries the run made, 0 if it was refused or left a session that refuses a status.
fn made_by(run: Run) -> u32 {
    match run.report {
        Ok(o) if is_accepted(run.session) => o.made,
        _ => 0,
    }
}

pub(crate) fn deliver_job(m: Mesh, repeats: u32) -> Result<(), Reason> {
    word(b"L");
    let turns = Turns::new(m, just_cut)?;
    if let Some(link) = lowest_under_way(&turns.even.first.states) {
        let delivery = last_of!(repeats, i => turns.at(i).deliver(link, FIRST));
        if is_accepted(delivery.session) {
            show_delivered(delivery.answer);
        }
    }
    Ok(())
}

fn show_delivered(d: Delivered) {
    match d {
        Delivered::Taken(v) => field(b" taken", u64::from(v)),
        Delivered::TurnedBack(v) => field(b" turned", u64::from(v)),
        Delivered::Released(v) => field(b" released", u64::from(v)),
        Delivered::Refused { number, place } => answer(Err(Reason { number, place })),
    }
}

pub(crate) fn status_job(m: Mesh, repeats: u32) -> Result<(), Reason> {
    word(b"U");
    show_status(Turns::new(m, just_cut)?, last_link(m), repeats);
    Ok(())
}

pub(crate) fn rest_job(m: Mesh, repeats: u32) -> Result<(), Reason> {
    word(b"V");
    let turns = Turns::new(m, |m| Ok(at_rest(just_cut(m)?)))?;
    show_status(turns, last_link(m), repeats);
    Ok(())
}

fn show_status(turns: Turns, link: u16, repeats: u32) {
    if let Ok(l) = last_of!(repeats, i => turns.at(i).status(link, FIRST)) {
        number(u64::from(l.state));
        number(u64::from(l.under_way));
        show_length(l.route);
    }
}

fn show_length(length: Option<u32>) {
    match length {
        Some(n) => number(u64::from(n)),
        None => word(b" -"),
    }
}
