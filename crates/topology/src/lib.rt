// The back-up digraph of a wavelength under a plan, with the failure of one link, as arrays.
#![tactic(auto)]

ghost use Rattle.std.specs.Prelude.{◌≡◌, cond, set};
ghost use Rattle.scan.specs.Entry.{at};
ghost use Rattle.wavelengths.specs.declared.Wavelength.TheVariants.{First};
ghost use Rattle.topology.specs.Arrays.{tails_into, heads_into};
ghost use Rattle.topology.specs.Arcs.{arcs_under, turned_under};

use ends::{high_of, low_of};
use flood::Arcs;
use states::links_of;
use wavelengths::Wavelength;

// A mesh's links under a plan and the cut of one of them, on arrays that are lent: how many links there are, their directions and their ends as numbers, as
// `mesh::split` stores them, and the cut one. Any other numbers are taken as they are.
#[derive(Clone, Copy, Debug, PartialEq, Eq)]
pub struct CutMesh<'a> {
    pub count: u16,
    pub directions: &'a [u8; 256],
    pub ends: &'a [u16; 256],
    pub link: u16,
}

// The start of a link that may not be offered: no node has this number.
// form: the starts are compared with the tails as bytes, many at a time, and an Option<u8> is two bytes, which no wide compare takes
const CLOSED: u8 = 255;

// The stream that a failure loses: from its source x to its target y.
#[derive(Clone, Copy, Debug, PartialEq, Eq)]
pub struct Stream {
    pub source: u8,
    pub target: u8,
}

// The first of two ends where p holds, else the second.
fn one_of(p: bool, a: u8, b: u8) -> u8
    ensures { result ≡ cond p a b }
{
    if p { a } else { b }
}

// Stores where each back-up arc of wavelength 1 starts, and where it ends; the entries past the last link stay.
fn orient(
    count: u16,
    directions: &[u8; 256],
    ends: &[u16; 256],
    tails: &mut [u8; 256],
    heads: &mut [u8; 256],
)
    ensures tails { tails.new ≡ tails_into First count ends.now directions.now tails.old }
    ensures heads { heads.new ≡ heads_into First count ends.now directions.now heads.old }
{
    let links = links_of(count as usize);
    for i in 0..links {
        let low = low_of(ends[i]);
        let high = high_of(ends[i]);
        let upward = directions[i] == 0;
        tails[i] = one_of(upward, high, low);
        heads[i] = one_of(upward, low, high);
    }
}

// The back-up arcs of a wavelength, for any ends and any directions: stores where each starts, and where it ends; the entries past the last link stay.
pub fn lay(
    wavelength: Wavelength,
    count: u16,
    directions: &[u8; 256],
    ends: &[u16; 256],
    tails: &mut [u8; 256],
    heads: &mut [u8; 256],
)
    ensures tails { tails.new ≡ tails_into wavelength count ends.now directions.now tails.old }
    ensures heads { heads.new ≡ heads_into wavelength count ends.now directions.now heads.old }
{
    match wavelength {
        Wavelength::First => orient(count, directions, ends, tails, heads),
        Wavelength::Second => orient(count, directions, ends, heads, tails),
    }
}

// Entry k; 0 where there is none.
pub fn entry(entries: &[u8], k: u16) -> u8
    ensures { result ≡ at entries.now k }
{
    entries.get(k as usize).copied().unwrap_or(0)
}

// Link k may not be offered.
fn close(starts: &mut [u8], k: u16)
    ensures { starts.new ≡ set starts.old k 255 }
{
    let i = k as usize;
    if i < starts.len() {
        starts[i] = CLOSED;
    }
}

// Link k is cut, on arcs with these tails and heads: in `starts`, which holds the tails again, it may not be offered. Gives the stream that the cut loses.
pub fn lose(tails: &[u8; 256], heads: &[u8; 256], starts: &mut [u8; 256], k: u16) -> Stream
    ensures starts { starts.new ≡ set starts.old k 255 }
    ensures source { result.source ≡ at heads.now k }
    ensures target { result.target ≡ at tails.now k }
{
    close(starts, k);
    let source = entry(heads, k);
    let target = entry(tails, k);
    Stream { source, target }
}

impl CutMesh<'_> {
    // The back-up arcs of a wavelength, with the failure that the cut is: the cut link may not be offered, and the stream from its head to its tail is lost.
    pub fn arcs(&self, wavelength: Wavelength) -> Arcs
        ensures { result ≡ arcs_under wavelength self.now }
    {
        let mut arcs = Arcs {
            tails: [0u8; 256],
            heads: [0u8; 256],
            starts: [0u8; 256],
            count: self.count as usize,
            source: 0,
            target: 0,
        };
        lay(
            wavelength,
            self.count,
            self.directions,
            self.ends,
            &mut arcs.tails,
            &mut arcs.heads,
        );
        arcs.starts = arcs.tails;
        let lost = lose(&arcs.tails, &arcs.heads, &mut arcs.starts, self.link);
        arcs.source = lost.source;
        arcs.target = lost.target;
        arcs
    }

    // Arcs turned round, as for the other wavelength, with the failure that the cut is on them.
    pub fn turned(&self, arcs: &Arcs) -> Arcs
        ensures { result ≡ turned_under self.now.link arcs.now }
    {
        let mut starts = arcs.heads;
        let lost = lose(&arcs.heads, &arcs.tails, &mut starts, self.link);
        Arcs {
            tails: arcs.heads,
            heads: arcs.tails,
            starts,
            count: arcs.count,
            source: lost.source,
            target: lost.target,
        }
    }
}
