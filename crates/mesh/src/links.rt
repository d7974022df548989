// The loops over a mesh's 256 entries.
ghost use Rattle.std.specs.Prelude.{◌≡◌, true, ◌||◌, ◌%◌, min, eqb, drop};
ghost use Rattle.scan.specs.Entry.{at};
ghost use Rattle.metres.specs.Length.{length_of};
ghost use Rattle.mesh.specs.Mesh.{is_zero, all_zero, ductless, rest_zero};
ghost use Rattle.mesh.specs.WellFormed.{InRange, lengths};
ghost use Rattle.mesh.specs.Parts.{ends_of, ends_into};

use crate::{Link, Mesh};
use metres::length_of;

// The ends of a link as one number, which rises as the pairs do.
pub fn ends_of(l: Link) -> u16
    ensures { result ≡ ends_of l }
{
    256 * (l.low as u16) + l.high as u16
}

// A number that is 0 just where all fields of the link are: their bits, joined. The factors put them where they stand in memory, so that the compiler reads
// them at once.
pub fn bits_of(l: Link) -> u64
    ensures { eqb result 0 ≡ is_zero l }
{
    l.low as u64 | 256 * (l.high as u64) | 65536 * (l.length as u64) | 4294967296 * (l.pair as u64)
}

// The same where i is odd, else 0.
fn bits_where_odd(i: usize, l: Link) -> u64
    ensures { eqb result 0 ≡ (eqb (i % 2) 0 || is_zero l) }
{
    if i % 2 == 0 { 0 } else { bits_of(l) }
}

// Stores the ends of each link as one number. The entries of `ends` past the last link stay.
fn store_ends(m: &Mesh, ends: &mut [u16; 256])
    ensures { ends.new ≡ ends_into m.now ends.old }
{
    let links = (m.count as usize).min(256);
    for i in 0..links {
        ends[i] = ends_of(m.links[i]);
    }
}

// Whether each entry past the last link is zero. The loop has no branch, so that the compiler tests several entries at once, and starts at an even one, so
// that two entries that are read at once, 16 bytes, do not lie across two blocks of 16 of a mesh that was just copied.
fn is_rest_zero(m: &Mesh) -> bool
    ensures rest { result ≡ all_zero (drop m.now.count m.now.links) }
    ensures ranges { InRange m.now }
{
    let from = (m.count as usize).min(256);
    let mut bits = bits_where_odd(from, m.links[from.min(255)]);
    for i in from + from % 2..256 {
        bits |= bits_of(m.links[i]);
    }
    bits == 0
}

// Whether the duct number of each entry past the last link is zero, with no branch either.
fn is_rest_ductless(m: &Mesh) -> bool
    ensures { result ≡ ductless (drop m.now.count m.now.ducts) }
{
    let mut ducts: u16 = 0;
    for j in (m.count as usize).min(256)..256 {
        ducts |= m.ducts[j];
    }
    ducts == 0
}

// How long the links are together whose numbers are the first n of `row`.
fn length_along(m: &Mesh, row: &[u8; 256], n: usize) -> Option<u32>
    ensures { result ≡ length_of (λ k. lengths m.now (at row.now k)) (λ k. true) (min n 256) }
{
    let listed = n.min(256);
    let mut metres: u32 = 0;
    let mut unmeasured = false;
    for k in 0..listed {
        let l = m.links[row[k] as usize];
        metres += l.length as u32;
        unmeasured |= l.length == 0;
    }
    length_of(metres, unmeasured)
}

// Takes a mesh apart: stores the ends of each link as one number, and says whether each entry past the last link, and its duct number, is zero. The entries
// of `ends` past the last link stay.
pub fn split(m: &Mesh, ends: &mut [u16; 256]) -> bool
    ensures rest { result ≡ rest_zero m.now }
    ensures ends { ends.new ≡ ends_into m.now ends.old }
    ensures ranges { InRange m.now }
{
    store_ends(m, ends);
    is_rest_zero(m) & is_rest_ductless(m)
}

// What is read off a mesh's links: whether each entry past the last link, and its duct number, is zero, and the length of the links that were listed.
#[derive(Clone, Copy)]
pub struct Parts {
    pub zeros: bool,
    pub length: Option<u32>,
}

// The same, and how long the links are together whose numbers are the first n of `row`.
pub fn split_along(m: &Mesh, ends: &mut [u16; 256], row: &[u8; 256], n: usize) -> Parts
    ensures rest { result.zeros ≡ rest_zero m.now }
    ensures ends { ends.new ≡ ends_into m.now ends.old }
    ensures length { result.length ≡ length_of (λ k. lengths m.now (at row.now k)) (λ k. true) (min n 256) }
    ensures ranges { InRange m.now }
{
    Parts {
        zeros: split(m, ends),
        length: length_along(m, row, n),
    }
}
