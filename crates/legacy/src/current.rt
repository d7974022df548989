// The parts of an old record in the types of now.
ghost use Rattle.std.specs.Prelude.{◌≡◌};
ghost use Rattle.legacy.specs.Current.{link_now, mesh_now, plan_now, flood_now};

use crate::{OldFlood, OldLink, OldMesh, OldPlan};
use flood::Flood;
use mesh::{Link, Mesh, Plan};

impl From<OldLink> for Link {
    ghost from_gives = { λ l r. r ≡ link_now l };

    fn from(l: OldLink) -> Link {
        Link {
            low: l.low,
            high: l.high,
            length: l.length,
            pair: l.pair,
        }
    }
}

impl From<OldMesh> for Mesh {
    ghost from_gives = { λ m r. r ≡ mesh_now m };

    fn from(m: OldMesh) -> Mesh {
        Mesh {
            links: m.links.map(Link::from),
            nodes: m.nodes,
            count: m.count,
            ducts: [0; 256],
        }
    }
}

impl From<OldPlan> for Plan {
    ghost from_gives = { λ p r. r ≡ plan_now p };

    fn from(p: OldPlan) -> Plan {
        let directions = p.directions;
        Plan { directions }
    }
}

impl From<OldFlood> for Flood {
    ghost from_gives = { λ f r. r ≡ flood_now f };

    fn from(f: OldFlood) -> Flood {
        let states = f.states;
        let reached = f.reached;
        Flood { states, reached }
    }
}
