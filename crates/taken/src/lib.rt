// The taken links as a list: by blocks, which the compiler makes a few wide compares of, then one by one.
#![tactic(auto)]

ghost use Rattle.std.specs.Prelude.{◌≡◌, ◌+◌, ◌≤◌, min, length};
ghost use Rattle.scan.specs.Lowest.{any};
ghost use Rattle.scan.specs.Listed.{Listing};
ghost use Rattle.taken.specs.Taken.{is_taken};

use states::{links_of, state};

// How many links a block has.
const BLOCK: usize = 16;

// Whether a link of the block at `from` is taken.
fn some_taken(states: &[u8; 256], from: usize) -> bool
    requires { from + 16 ≤ 256 }
    ensures { result ≡ any (λ j. is_taken states.now (from + j)) 16 }
{
    (from..from + BLOCK).fold(false, |found, i| found | (states[i] == state::TAKEN))
}

// Lists the taken links from `from` to below `end`, after n that are listed; gives how many are listed then.
fn list_between(states: &[u8; 256], from: usize, end: usize, row: &mut [u8], n: usize) -> usize
    requires from_le_end { (from ≤ end) × (end ≤ 256) × (end ≤ length row.old) }
    requires listing { Listing (is_taken states.now) from n row.old }
    ensures { Listing (is_taken states.now) end result row.new }
{
    let mut listed = n;
    for i in from..end {
        if states[i] == state::TAKEN {
            row[listed] = i as u8;
            listed += 1;
        }
    }
    listed
}

// Of the first `most` links the numbers of those that are taken, rising, in the first entries of `row`; gives how many they are.
pub fn list(states: &[u8; 256], most: usize, row: &mut [u8; 256]) -> usize
    ensures { Listing (is_taken states.now) (min most 256) result row.new }
{
    let links = links_of(most);
    let blocks = links / BLOCK;
    let mut n = 0;
    for b in 0..blocks {
        let from = b * BLOCK;
        if some_taken(states, from) {
            n = list_between(states, from, from + BLOCK, row, n);
        }
    }
    list_between(states, blocks * BLOCK, links, row, n)
}
