// Sessions from before wavelength 2.
use crate::entries::next_link;
use crate::session::{read_cut, read_flood, read_plan};
use flood::Flood;
use legacy::{OldCut, OldFlood, OldLink, OldMesh, OldPlan, OldSession};
use mesh::{Link, Plan};
use streams::input::{next_byte, next_two};

pub fn read_old_session() -> OldSession {
    let mesh = read_old_mesh();
    let Plan { directions } = read_plan();
    let cut = old_cut(read_cut());
    let Flood { states, reached } = read_flood();
    OldSession {
        mesh,
        plan: OldPlan { directions },
        cut,
        flood: OldFlood { states, reached },
    }
}

fn read_old_mesh() -> OldMesh {
    let none = OldLink {
        low: 0,
        high: 0,
        length: 0,
        pair: 0,
    };
    let nodes = next_byte();
    let count = next_two();
    let mut links = [none; 256];
    for _ in 0..next_two() {
        let at = next_byte();
        links[usize::from(at)] = old_link(next_link());
    }
    OldMesh {
        links,
        nodes,
        count,
    }
}

// A link without its duct is as it was.
fn old_link(l: Link) -> OldLink {
    OldLink {
        low: l.low,
        high: l.high,
        length: l.length,
        pair: l.pair,
    }
}

fn old_cut(cut: Option<u16>) -> OldCut {
    match cut {
        Some(k) => OldCut::Link(k),
        None => OldCut::Nothing,
    }
}
