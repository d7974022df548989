// Plans and sessions.
use crate::entries::read_entries;
use flood::Flood;
use mesh::{Mesh, Plan};
use recovery::Session;
use streams::input::{next_byte, next_two};

// The directions that come next, zeros past them.
pub fn read_plan() -> Plan {
    let mut directions = [0u8; 256];
    for i in 0..next_two() {
        store(&mut directions, usize::from(i), next_byte());
    }
    Plan { directions }
}

// A session on the mesh, of which some entries, the nodes and the count are stored over.
pub fn read_session(m: Mesh) -> Session {
    let plan = read_plan();
    let cut = read_cut();
    let first = read_flood();
    let second = read_flood();
    let mesh = read_mesh(m);
    Session {
        mesh,
        plan,
        cut,
        first,
        second,
    }
}

// The states and the reached nodes of one wavelength.
pub(crate) fn read_flood() -> Flood {
    Flood {
        states: read_states(),
        reached: read_reached(),
    }
}

// The states that come next, each with its index; the others are zero.
fn read_states() -> [u8; 256] {
    let mut states = [0u8; 256];
    for _ in 0..next_two() {
        let at = next_byte();
        states[usize::from(at)] = next_byte();
    }
    states
}

// Which nodes are reached: those that come next.
fn read_reached() -> [bool; 64] {
    let mut reached = [false; 64];
    for _ in 0..next_byte() {
        store(&mut reached, usize::from(next_byte()), true);
    }
    reached
}

// Stores v at index i where there is one.
fn store<T: Copy>(entries: &mut [T], i: usize, v: T) {
    if let Some(entry) = entries.get_mut(i) {
        *entry = v;
    }
}

pub(crate) fn read_cut() -> Option<u16> {
    let k = next_two();
    if k == u16::MAX { None } else { Some(k) }
}

fn read_mesh(m: Mesh) -> Mesh {
    let mut changed = read_entries(m, u16::from(next_byte()));
    changed.nodes = next_byte();
    changed.count = next_two();
    changed
}
