// A session from before wavelength 2 becomes a session of now (02, request 3).
#![tactic(auto)]

ghost use Rattle.std.specs.Prelude.{◌≡◌};
ghost use Rattle.recovery.specs.Calls.{zero_session};
ghost use Rattle.upgrade.specs.Carried.{cut_again, carried};

use flood::Flood;
use legacy::{OldCut, OldSession};
use mesh::{Mesh, Plan, Reason};
use recovery::{Change, Session};

// What a refused start gives: a start on the all-zero mesh, which has no nodes, is refused.
#[tactic(auto, unfolding(recovery::specs::Calls::started, formed::specs::Formed::start_answer, mesh::specs::Mesh::mesh_answer))]
fn zero_session() -> Session
    ensures { result ≡ zero_session }
{
    let plan = Plan {
        directions: [0u8; 256],
    };
    Session::start(mesh::zero_mesh(), plan).session
}

// The session with the cut made on it that stands in an old one.
fn cut_again(s: Session, cut: OldCut) -> Session
    ensures { result ≡ cut_again s cut }
{
    match cut {
        OldCut::Nothing => s,
        OldCut::Link(k) => s.cut(k).session,
    }
}

// 02's carry-over of an old session: its record is tested as it was before, but that links may have the same ends; all zeros with no cut on a refusal. Mesh, plan and cut are kept. A start on
// them, with the cut made anew where one stands, gives wavelength 2; wavelength 1 keeps its states and reached nodes.
pub fn carry_over(old: OldSession) -> Change
    ensures { result ≡ carried old }
{
    let answer = legacy::check(old);
    let Ok(()) = answer else {
        let session = zero_session();
        return Change { session, answer };
    };
    let started = Session::start(Mesh::from(old.mesh), Plan::from(old.plan));
    let mut session = cut_again(started.session, old.cut);
    session.first = Flood::from(old.flood);
    Change { session, answer }
}
