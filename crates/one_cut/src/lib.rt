// What one cut leads to on wavelength 1, on a mesh and its plan.
#![tactic(auto)]

ghost use Rattle.std.specs.Prelude.{◌≡◌};
ghost use Rattle.recovery.specs.Calls.{after_cut, after_run};
ghost use Rattle.one_cut.specs.OneCut.{metres_of, status_metres, recovered};

use flood::Route;
use mesh::{Mesh, Reason};
use recovery::{Run, Session};
use states::count;
use status::LinkStatus;

// The number of wavelength 1.
pub const FIRST: u8 = 1;

// Of wavelength 1 the route, its deliveries and its metres.
// form: 4294967295 where the metres are not known, since covetureen_route stores that number for C.
#[derive(Clone, Copy)]
pub struct Recovered {
    pub route: Route,
    pub deliveries: u16,
    pub metres: u32,
}

// A length as a number.
fn metres_of(length: Option<u32>) -> u32
    ensures { result ≡ metres_of length }
{
    length.unwrap_or(u32::MAX)
}

// The route length that a status gives.
fn status_metres(s: Result<LinkStatus, Reason>) -> u32
    ensures { result ≡ status_metres s }
{
    match s {
        Ok(l) => metres_of(l.route),
        Err(_) => 0,
    }
}

// The cut of a link on a session, and an unhindered run.
pub fn run(s: Session, link: u16) -> Run
    ensures { result ≡ after_run (after_cut s link).session 4294967295 }
{
    let cut = s.cut(link).session;
    cut.run(u32::MAX)
}

// What they lead to on wavelength 1, on a session on a mesh and its plan.
pub fn recover(m: Mesh, link: u16) -> Recovered
    ensures { result ≡ recovered m link }
{
    let fresh = Session::start(m, planner::plan(m).plan).session;
    let s = run(fresh, link).session;
    Recovered {
        route: s.route(FIRST).route,
        deliveries: count::deliveries(&s.first.states, usize::from(s.mesh.count)),
        metres: status_metres(s.status(link, FIRST)),
    }
}
