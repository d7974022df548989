// The digest of a session's mesh and plan (docs/CORPUS.md).
ghost use Rattle.std.specs.Prelude.{◌<◌};
ghost use Rattle.records.specs.declared.digest.TheConstants.{MODULUS};

use mesh::{Link, Mesh};
use recovery::Session;
use streams::print::line;

const MODULUS: u64 = 4294967291;

// A digest of bytes.
#[derive(Clone, Copy)]
struct Digest {
    value: u64,
    ghost below: { value < MODULUS },
}

impl Digest {
    // The digest of these bytes behind those before them.
    fn add(&mut self, bytes: &[u8]) {
        for b in bytes {
            self.value = (self.value * 257 + u64::from(*b) + 1) % MODULUS;
        }
    }

    fn add_link(&mut self, l: &Link, duct: u16) {
        self.add(&[l.low, l.high]);
        self.add(&l.length.to_le_bytes());
        self.add(&l.pair.to_le_bytes());
        self.add(&duct.to_le_bytes());
    }

    fn add_mesh(&mut self, m: &Mesh) {
        self.add(&[m.nodes]);
        self.add(&m.count.to_le_bytes());
        for (l, duct) in m.links.iter().zip(&m.ducts) {
            self.add_link(l, *duct);
        }
    }
}

pub fn show_digest(s: Session) {
    let mut digest = Digest { value: 0 };
    digest.add_mesh(&s.mesh);
    digest.add(&s.plan.directions);
    line(b"digest", digest.value);
}
