// Where the lists of demand 3 begin, and what one cut leads to.
ghost use Rattle.std.specs.Prelude.{◌≡◌};
ghost use Rattle.recovery.specs.Calls.{started, routed};
ghost use Rattle.upgrade.specs.Carried.{carried};
ghost use Rattle.history.specs.Demand.{Sized};
ghost use Rattle.clients.specs.Sessions.{begun, recovered};

use crate::{Begun, Recovered};
use legacy::OldSession;
use mesh::{Mesh, Plan};
use recovery::{Change, Routed, Session};
use states::count;

// The number of wavelength 1.
const FIRST: u8 = 1;

// A start on any mesh and plan.
pub fn start(m: Mesh, plan: Plan) -> Change
    ensures { result ≡ started m plan }
{
    Session::start(m, plan)
}

// A carry-over of any session from before wavelength 2.
pub fn carry_over(old: OldSession) -> Change
    ensures { result ≡ carried old }
{
    upgrade::carry_over(old)
}

// The route query on any session and wavelength.
pub fn route(s: Session, wavelength: u8) -> Routed
    ensures { result ≡ routed s wavelength }
{
    s.route(wavelength)
}

// Plans a mesh and starts a session on the mesh and its plan.
pub fn begin(m: Mesh) -> Begun
    ensures { result ≡ begun m }
{
    let planned = planner::plan(m);
    let started = start(m, planned.plan);
    Begun {
        session: started.session,
        plan: planned.plan,
        planning: planned.answer,
        starting: started.answer,
    }
}

// Cuts a link on a session, lets it run, and asks for the link's status and the route on wavelength 1. The lists of a session that a function is given have
// the lengths that `Sized` says.
pub fn recover(s: Session, link: u16) -> Recovered
    ensures value { result ≡ recovered s link }
    ensures sized { Sized s }
{
    let cut = s.cut(link).session;
    let run = cut.run(u32::MAX);
    let ended = run.session;
    Recovered {
        deliveries: count::deliveries(&ended.first.states, usize::from(ended.mesh.count)),
        report: run.report,
        status: ended.status(link, FIRST),
        routed: route(ended, FIRST),
    }
}
