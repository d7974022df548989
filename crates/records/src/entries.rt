// Meshes by their entries.
use mesh::{Link, Mesh};
use streams::input::{next_byte, next_four, next_two};

// The mesh with the ends of its first links that come next.
pub fn read_ends(mut m: Mesh, count: u16) -> Mesh {
    for i in 0..count {
        let low = next_byte();
        let high = next_byte();
        if let Ok(at) = u8::try_from(i) {
            let l = Link {
                low,
                high,
                length: 0,
                pair: 0,
            };
            set_entry(&mut m, at, l, 0);
        }
    }
    m
}

// The mesh with the entries that come next, each with its index.
pub fn read_entries(mut m: Mesh, entries: u16) -> Mesh {
    for _ in 0..entries {
        let at = next_byte();
        let l = next_link();
        set_entry(&mut m, at, l, next_two());
    }
    m
}

// The link that comes next: its ends, its length and its fibre pair.
pub(crate) fn next_link() -> Link {
    Link {
        low: next_byte(),
        high: next_byte(),
        length: next_two(),
        pair: next_four(),
    }
}

// Stores a link and its duct at this index.
fn set_entry(m: &mut Mesh, at: u8, l: Link, duct: u16) {
    m.links[usize::from(at)] = l;
    m.ducts[usize::from(at)] = duct;
}
