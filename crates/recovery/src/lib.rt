// The recovery machine: a session on a mesh and a plan, and its calls by value. Each call takes the session apart once, hands its pieces to a
// function of the crate `changes`, `status` or `queries`, and puts the session together once.
#![tactic(auto)]

ghost use Rattle.std.specs.Prelude.{◌≡◌, replicate};
ghost use Rattle.flood.specs.Machine.{fresh};
ghost use Rattle.pieces.specs.Pieces.{chosen};
ghost use Rattle.recovery.specs.Calls.{fresh_on, started, after_cut, after_delivery, after_run, after_mend, status_of, acted, routed};
ghost use Rattle.recovery.specs.Pieces.{delivered_by};

use backup::Acted;
use flood::{Flood, Route};
use flooding::running::Outcome;
use mesh::{Mesh, Plan, Reason};
use status::LinkStatus;

// Mesh, plan, the cut link or none, and the flood on wavelength 1 and on wavelength 2.
#[derive(Clone, Copy)]
pub struct Session {
    pub mesh: Mesh,
    pub plan: Plan,
    pub cut: Option<u16>,
    pub first: Flood,
    pub second: Flood,
}

// What start, cut and mend give.
// form: no Result, since by 01 a refused start gives all zeros with no cut, and a refused call hands the session back.
#[derive(Clone, Copy)]
pub struct Change {
    pub session: Session,
    pub answer: Result<(), Reason>,
}

// What a delivery answers: what became of its link, with the node that acted, or a refusal.
// form: no Result, since 01 has one enum answer it, of three cases with the node and a refusal with number and place.
#[derive(Clone, Copy)]
pub enum Delivered {
    Taken(u8),
    TurnedBack(u8),
    Released(u8),
    Refused { number: u8, place: usize },
}

#[derive(Clone, Copy)]
pub struct Delivery {
    pub session: Session,
    pub answer: Delivered,
}

// What a run reports: how many deliveries it made and whether it is at rest, or a refusal.
#[derive(Clone, Copy)]
pub struct Run {
    pub session: Session,
    pub report: Result<Outcome, Reason>,
}

// What the route query gives: the links of a wavelength's route from its x on, none on a refusal.
// form: no Result, since the clause of `route` and the definition `routed` say that a refused route has no links.
#[derive(Clone, Copy)]
pub struct Routed {
    pub route: Route,
    pub answer: Result<(), Reason>,
}

// form: each call reads the fields into locals: by references into the session a cut of the triangle takes 28 percent more instructions.
impl Session {
    // The largest node and link counts.
    pub const MOST_NODES: usize = 64;

    pub const MOST_LINKS: usize = 256;

    // A fresh session: no cut, and on each wavelength all links quiet and no node reached. Tests nothing: `start` is the call that does.
    fn fresh(mesh: Mesh, plan: Plan) -> Session
        ensures { result ≡ fresh_on mesh plan }
    {
        let first = quiet();
        let second = quiet();
        let cut = None;
        Session {
            mesh,
            plan,
            cut,
            first,
            second,
        }
    }

    // 01's start on a mesh and a plan: a fresh session, its record tested as in each call; all zeros with no cut on a refusal.
    pub fn start(mesh: Mesh, plan: Plan) -> Change
        ensures { result ≡ started mesh plan }
    {
        let first = quiet();
        let second = quiet();
        let cut = None;
        let answer = queries::tested(mesh, &plan.directions, cut, &first, &second);
        let Ok(()) = answer else {
            let session = Session::fresh(mesh::zero_mesh(), zero_plan());
            return Change { session, answer };
        };
        let session = Session {
            mesh,
            plan,
            cut,
            first,
            second,
        };
        Change { session, answer }
    }

    // Link k is cut: a flood begins on each wavelength.
    pub fn cut(self, link: u16) -> Change
        ensures { result ≡ after_cut self link }
    {
        let mesh = self.mesh;
        let plan = self.plan;
        let before = self.cut;
        let mut first = self.first;
        let mut second = self.second;
        let answer = changes::cut(
            mesh,
            &plan.directions,
            before,
            &mut first,
            &mut second,
            link,
        );
        let cut = cut_after(answer, before, Some(link));
        let session = Session {
            mesh,
            plan,
            cut,
            first,
            second,
        };
        Change { session, answer }
    }

    // A delivery on a link and a wavelength.
    pub fn deliver(mut self, link: u16, wavelength: u8) -> Delivery
        ensures { result ≡ after_delivery self link wavelength }
    {
        let mesh = self.mesh;
        let plan = self.plan;
        let cut = self.cut;
        let mut first = self.first;
        let mut second = self.second;
        let moved = changes::deliver(
            mesh,
            &plan.directions,
            cut,
            &mut first,
            &mut second,
            link,
            wavelength,
        );
        let answer = delivery_answer(moved);
        self.first = first;
        self.second = second;
        let session = self;
        Delivery { session, answer }
    }

    // Deliveries on the lowest link under way on either wavelength, on wavelength 1 before 2, until nothing is under way on either or until the allowed
    // number is used.
    pub fn run(mut self, allowance: u32) -> Run
        ensures { result ≡ after_run self allowance }
    {
        let mesh = self.mesh;
        let plan = self.plan;
        let cut = self.cut;
        let mut first = self.first;
        let mut second = self.second;
        let report = changes::run(
            mesh,
            &plan.directions,
            cut,
            &mut first,
            &mut second,
            allowance,
        );
        self.first = first;
        self.second = second;
        let session = self;
        Run { session, report }
    }

    // The cut link is mended, at rest on both wavelengths: a fresh session on the same plan.
    pub fn mend(self, link: u16) -> Change
        ensures { result ≡ after_mend self link }
    {
        let mesh = self.mesh;
        let plan = self.plan;
        let before = self.cut;
        let f = self.first;
        let g = self.second;
        let answer = queries::mend_answer(mesh, &plan.directions, before, &f, &g, link);
        let cut = cut_after(answer, before, None);
        let first = flood_after(answer, f);
        let second = flood_after(answer, g);
        let session = Session {
            mesh,
            plan,
            cut,
            first,
            second,
        };
        Change { session, answer }
    }

    // A link's state on a wavelength, how many links are under way on it, and its route length.
    pub fn status(self, link: u16, wavelength: u8) -> Result<LinkStatus, Reason>
        ensures { result ≡ status_of self link wavelength }
    {
        let mesh = self.mesh;
        let plan = self.plan;
        let cut = self.cut;
        let first = self.first;
        let second = self.second;
        status::status(
            mesh,
            &plan.directions,
            cut,
            &first,
            &second,
            link,
            wavelength,
        )
    }

    // The links of a wavelength's route from its x on, where a cut stands and nothing is under way on that wavelength.
    pub fn route(self, wavelength: u8) -> Routed
        ensures { result ≡ routed self wavelength }
    {
        let mesh = self.mesh;
        let plan = self.plan;
        let cut = self.cut;
        let first = self.first;
        let second = self.second;
        let found = queries::route(mesh, &plan.directions, cut, &first, &second, wavelength);
        match found {
            Ok(route) => Routed {
                route,
                answer: Ok(()),
            },
            Err(reason) => Routed {
                route: Route {
                    links: [0u16; Session::MOST_LINKS],
                    length: 0,
                },
                answer: Err(reason),
            },
        }
    }
}

// All links quiet and no node reached.
fn quiet() -> Flood
    ensures { result ≡ fresh 256 64 }
{
    Flood {
        states: [0u8; Session::MOST_LINKS],
        reached: [false; Session::MOST_NODES],
    }
}

// The cut after a call that answers so.
fn cut_after(answer: Result<(), Reason>, before: Option<u16>, after: Option<u16>) -> Option<u16>
    ensures { result ≡ chosen answer before after }
{
    match answer {
        Ok(()) => after,
        Err(_) => before,
    }
}

// The flood on a wavelength after a mend that answers so.
fn flood_after(answer: Result<(), Reason>, before: Flood) -> Flood
    ensures { result ≡ chosen answer before (fresh 256 64) }
{
    match answer {
        Ok(()) => quiet(),
        Err(_) => before,
    }
}

fn zero_plan() -> Plan
    ensures { result.directions ≡ replicate 256 0 }
{
    Plan {
        directions: [0u8; Session::MOST_LINKS],
    }
}

// What a delivery answers, by what became of its link: the state that the link has then says which node acted.
fn acted_on(link: Acted) -> Delivered
    ensures { result ≡ acted link.tail link.head link.state }
{
    match link.state {
        2 => Delivered::Taken(link.head),
        3 => Delivered::TurnedBack(link.head),
        0 | 1 | 4 | 5..=255 => Delivered::Released(link.tail),
    }
}

// What a delivery answers, refused or not.
fn delivery_answer(moved: Result<Acted, Reason>) -> Delivered
    ensures { result ≡ delivered_by moved }
{
    match moved {
        Ok(link) => acted_on(link),
        Err(Reason { number, place }) => Delivered::Refused { number, place },
    }
}
