// The entries of a mesh record: a line for each link, and a count of the others that are not all zero.
ghost use Rattle.std.specs.Prelude.{◌≡◌, ◌&&◌, eqb, not, count_by, drop};
ghost use Rattle.std.specs.List.{zip};
ghost use Rattle.mesh.specs.Mesh.{is_zero};

use mesh::{Link, Mesh};
use streams::print::{end, field, number};

// A line for each link.
pub(crate) fn show_links(m: &Mesh) {
    for k in 0..m.count.min(256) {
        show_link(k as u64, m.links[k as usize], m.ducts[k as usize]);
    }
}

// How many entries past the last link are not all zero.
pub(crate) fn count_rest(m: &Mesh) -> usize
    ensures { result ≡ count_by (λ e. not (is_zero e.0 && eqb e.1 0)) (drop m.now.count (zip m.now.links m.now.ducts)) }
{
    m.links
        .iter()
        .zip(m.ducts.iter())
        .skip(m.count as usize)
        .filter(|(l, duct)| !is_unused(l, **duct))
        .count()
}

// Whether an entry is all zero.
fn is_unused(l: &Link, duct: u16) -> bool
    ensures { result ≡ (is_zero l.now && eqb duct 0) }
{
    l.low == 0 && l.high == 0 && l.length == 0 && l.pair == 0 && duct == 0
}

// The line of link i, which has this duct.
pub fn show_link(i: u64, l: Link, duct: u16) {
    field(b"link", i);
    number(l.low as u64);
    number(l.high as u64);
    number(l.length as u64);
    number(l.pair as u64);
    number(duct as u64);
    end();
}
