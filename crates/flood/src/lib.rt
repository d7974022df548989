// The flood over a digraph after a failure: theory, and the records of its arrays.
#![tactic(auto)]

// A state per link (0 quiet, 1 offered, 2 taken, 3 refused, 4 released), and which nodes are reached.
#[derive(Clone, Copy, Debug, PartialEq, Eq)]
pub struct Flood {
    pub states: [u8; 256],
    pub reached: [bool; 64],
}

// The arcs of a digraph with a failure in it: link i leads from tails[i] to heads[i], and may be offered where starts[i] is its tail. Of `count` links the
// first 256 are there. The stream that led from the source to the target is lost.
#[derive(Clone, Copy, Debug, PartialEq, Eq)]
pub struct Arcs {
    pub tails: [u8; 256],
    pub heads: [u8; 256],
    pub starts: [u8; 256],
    pub count: usize,
    pub source: u8,
    pub target: u8,
}

// Links in a row: the first `length` entries, zeros past them.
// form: an array with a length, since memory is fixed, and covetureen_route stores both for C.
#[derive(Clone, Copy, Debug, PartialEq, Eq)]
pub struct Route {
    pub links: [u16; 256],
    pub length: u16,
}
