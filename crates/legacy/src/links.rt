// The loops over an old mesh's 256 entries.
ghost use Rattle.std.specs.Prelude.{◌≡◌};
ghost use Rattle.legacy.specs.Record.{is_zero, rest_zero, ends_of, ends_into};
ghost use Rattle.legacy.specs.WellFormed.{InRange};

use crate::{OldLink, OldMesh};

// The ends of a link as one number, which rises as the pairs do.
fn ends_of(l: OldLink) -> u16
    ensures { result ≡ ends_of l }
{
    256 * (l.low as u16) + l.high as u16
}

// Whether the entry is all zero, its fibre pair too.
fn is_zero(l: OldLink) -> bool
    ensures { result ≡ is_zero l }
{
    (l.low == 0) & (l.high == 0) & (l.length == 0) & (l.pair == 0)
}

// Takes a mesh apart: stores the ends of each link as one number, and says whether each entry past the last link is zero. The entries of `ends` past the
// last link stay.
pub(crate) fn split(m: &OldMesh, ends: &mut [u16; 256]) -> bool
    ensures rest { result ≡ rest_zero m.now }
    ensures ends { ends.new ≡ ends_into m.now ends.old }
    ensures ranges { InRange m.now }
{
    let count = (m.count as usize).min(256);
    for i in 0..count {
        ends[i] = ends_of(m.links[i]);
    }
    let mut zeros = true;
    for i in count..256 {
        zeros &= is_zero(m.links[i]);
    }
    zeros
}
