// The lines of a listing: the mesh, each link with its direction, and what each cut leads to on wavelength 1 (01, the program meshplan).
#![tactic(auto)]

ghost use Rattle.std.specs.Prelude.{◌≡◌, ◌==◌, ◌<◌, ◌≤◌, slice_index, if◌then◌else◌};
ghost use Rattle.mesh.specs.WellFormed.{link};

use clients::session::recover;
use flood::Route;
use mesh::Reason;
use recovery::Session;
use status::LinkStatus;
use streams::held::Held;

// A link with its direction.
#[derive(Clone, Copy)]
struct Row {
    number: u16,
    low: u8,
    high: u8,
    direction: u8,
}

impl Row {
    // Zeros past the last entry.
    fn of(fresh: &Session, k: u16) -> Self
        ensures number { result.number ≡ k }
        ensures low { k < 256 → result.low ≡ (link fresh.now.mesh k).low }
        ensures high { k < 256 → result.high ≡ (link fresh.now.mesh k).high }
        ensures direction { k < 256 → result.direction ≡ slice_index fresh.now.plan.directions k }
        ensures past { 256 ≤ k → (result.low ≡ 0) × (result.high ≡ 0) × (result.direction ≡ 0) }
    {
        if 255 < k {
            return Row {
                number: k,
                low: 0,
                high: 0,
                direction: 0,
            };
        }
        let l = fresh.mesh.links[k as usize];
        Row {
            number: k,
            low: l.low,
            high: l.high,
            direction: fresh.plan.directions[k as usize],
        }
    }

    // The ends of the primary arc: x, then y.
    fn arc(self) -> (u8, u8)
        ensures { result ≡ if self.direction == 0 then (self.low, self.high) else (self.high, self.low) }
    {
        if self.direction == 0 {
            (self.low, self.high)
        } else {
            (self.high, self.low)
        }
    }
}

// The lines of the mesh, of each link, and of each cut.
pub fn print_session(fresh: Session) {
    let mut out = Held::new();
    out.pair(b"mesh", fresh.mesh.nodes as u64, fresh.mesh.count as u64);
    for k in 0..fresh.mesh.count {
        put_link(&mut out, Row::of(&fresh, k));
    }
    for k in 0..fresh.mesh.count {
        put_cut(&mut out, &fresh, Row::of(&fresh, k));
    }
    out.write();
}

fn put_link(out: &mut Held, row: Row) {
    put_ends(out, b"link", row.number, (row.low, row.high));
    out.number(row.direction as u64);
    out.end_line();
}

// A word, a link and two of its ends.
fn put_ends(out: &mut Held, text: &[u8], number: u16, ends: (u8, u8)) {
    out.field(text, number as u64);
    out.number(ends.0 as u64);
    out.number(ends.1 as u64);
}

// What a cut of the link leads to on a fresh session: on wavelength 1 its own deliveries, its length and its route.
fn put_cut(out: &mut Held, fresh: &Session, row: Row) {
    let recovered = recover(*fresh, row.number);
    let Ok(_) = recovered.report else {
        return;
    };
    put_ends(out, b"cut", row.number, row.arc());
    out.number(recovered.deliveries as u64);
    put_length(out, recovered.status);
    put_route(out, &recovered.routed.route);
    out.end_line();
}

// The route length that a status gives: a number, or a hyphen where it is not known.
fn put_length(out: &mut Held, status: Result<LinkStatus, Reason>) {
    let Ok(LinkStatus { route, .. }) = status else {
        return;
    };
    match route {
        Some(n) => out.number(n as u64),
        None => out.hyphen(),
    }
}

fn put_route(out: &mut Held, route: &Route) {
    for k in route.links.iter().take(route.length as usize) {
        out.number(*k as u64);
    }
}
