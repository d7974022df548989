// The loops over the entries of a record. No branch between the entries of a block, so that the compiler can test several at once.
#![tactic(auto)]

ghost use Rattle.std.specs.Prelude.{◌≡◌, not, ◌||◌, ℕ, ◌≤◌, ltb};
ghost use Rattle.scan.specs.Entry.{at};
ghost use Rattle.scan.specs.Lowest.{any};
ghost use Rattle.faults.specs.Faults.{overflows, strays, highest, joined_bits, is_used, is_leftover};

use ends::lower;

// What the entries of an array are.
#[derive(Clone, Copy, Debug, PartialEq, Eq)]
pub enum Kind {
    Direction,
    State,
}

// Whether v is no direction, which is 0 or 1, or no state, which is 0 to 4.
fn is_above(kind: Kind, v: u8) -> bool
    ensures { result ≡ ltb (highest kind) v }
{
    match kind {
        Kind::Direction => match v {
            0 | 1 => false,
            2..=255 => true,
        },
        Kind::State => match v {
            0 | 1 | 2 | 3 | 4 => false,
            5..=255 => true,
        },
    }
}

// How many entries a block has.
const BLOCK: usize = 64;

// Where the last whole block starts.
const LAST_BLOCK: usize = 192;

// The bits of three entries.
fn joined(a: u8, b: u8, c: u8) -> u8
    ensures { result ≡ joined_bits a b c }
{
    a | b | c
}

// The directions of a plan and the states of two wavelengths.
#[derive(Clone, Copy)]
struct Entries<'a, 'b> {
    directions: &'a [u8; 256],
    first: &'b [u8; 256],
    second: &'b [u8; 256],
}

impl<'a, 'b> Entries<'a, 'b> {
    // Whether an entry from `from` to below `end` is not zero in one of the arrays: some bit of some entry is set.
    fn is_used(&self, from: usize, end: usize) -> bool
        requires { end ≤ 256 }
        ensures { result ≡ any (is_leftover from (is_used self.now.directions.now self.now.first.now self.now.second.now)) end }
    {
        let mut bits = 0;
        for i in from..end {
            bits = bits | joined(self.directions[i], self.first[i], self.second[i]);
        }
        bits != 0
    }

    // Whether an entry past the last link is not zero. The last block is a whole one, so that no entry is tested by itself.
    fn has_leftover(&self, links: u16) -> bool
        ensures { result ≡ any (is_leftover links (is_used self.now.directions.now self.now.first.now self.now.second.now)) 256 }
    {
        let from = links as usize;
        if LAST_BLOCK < from {
            return self.is_used(from, 256);
        }
        for i in (from..256).step_by(BLOCK) {
            let start = lower(i, LAST_BLOCK);
            if self.is_used(start, start + BLOCK) {
                return true;
            }
        }
        false
    }
}

// The largest entry: it is above just what some entry is above.
fn largest(entries: &[u8; 256]) -> u8
    ensures { (top : ℕ) → ltb top result ≡ any (λ i. ltb top (at entries.now i)) 256 }
{
    let mut top: u8 = 0;
    for &v in entries {
        top = top.max(v);
    }
    top
}

// Whether a direction is above 1, a state of one of two wavelengths above 4, or an entry of theirs past the last link not zero: one loop tests the
// entries past the last link of all three arrays.
pub fn has_bad_entry<'a>(
    links: u16,
    directions: &[u8; 256],
    first: &'a [u8; 256],
    second: &'a [u8; 256],
) -> bool
    ensures { result ≡ (overflows links 1 directions.now || (overflows links 4 first.now || overflows links 4 second.now)) }
{
    let top = largest(first).max(largest(second));
    let entries = Entries {
        directions,
        first,
        second,
    };
    is_above(Kind::Direction, largest(directions))
        | is_above(Kind::State, top)
        | entries.has_leftover(links)
}

// Whether a node not below N is reached, on one of two wavelengths: one loop tests both.
pub fn has_stray<'a>(nodes: u8, first: &'a [bool; 64], second: &'a [bool; 64]) -> bool
    ensures { result ≡ (strays nodes first.now || strays nodes second.now) }
{
    let mut bad = false;
    for v in nodes as usize..64 {
        bad = bad | (first[v] | second[v]);
    }
    bad
}
