// Searches over the links: by blocks, which the compiler makes a few wide compares of, then one by one.
#![tactic(auto)]

ghost use Rattle.std.specs.Prelude.{◌≡◌, ℕ, ◌+◌, ◌<◌, ◌≤◌, Bool, min};
ghost use Rattle.scan.specs.Lowest.{lowest, any};
ghost use Rattle.flood.specs.Lent.{held, taken, busy_from};
ghost use Rattle.searches.specs.Scan.{Tells, Passed};

use states::{is_under_way, links_of, state};

// How many links a block has.
const BLOCK: usize = 16;

// How many it has where it need not be told which of its links passes.
const WIDE_BLOCK: usize = 32;

// form: the clause `callable` in each, since a ghost field cannot say yet that a closure parameter may be called.
// Whether a link of the block at `from` passes.
fn some_within<const N: usize, F: Fn(usize) -> bool>(from: usize, passes: &F) -> bool
    requires callable { (i : ℕ) → i < 256 → F.pre passes.now i }
    requires block { from + N ≤ 256 }
    ensures { (p : ℕ → Bool) → Tells (F.post passes.now) p from → result ≡ any (λ j. p (from + j)) N }
{
    let mut found = false;
    for j in 0..N {
        found = found | passes(from + j);
    }
    found
}

// From `from` on the lowest link that passes, one by one; the number of links where there is none.
fn lowest_from<F: Fn(usize) -> bool>(links: usize, from: usize, passes: &F) -> usize
    requires callable { (i : ℕ) → i < 256 → F.pre passes.now i }
    requires within { links ≤ 256 }
    ensures { (p : ℕ → Bool) → Tells (F.post passes.now) p from → Passed p links from → result ≡ lowest p links }
{
    for i in from..links {
        if passes(i) {
            return i;
        }
    }
    links
}

// form: blocks of its own beside those of lowest_passing: one function for both took 1.9 percent more instructions in a run on the largest mesh.
// Whether a link passes.
fn some_passing<F: Fn(usize) -> bool>(links: usize, passes: F) -> bool
    requires callable { (i : ℕ) → i < 256 → F.pre passes i }
    requires within { links ≤ 256 }
    ensures { (p : ℕ → Bool) → Tells (F.post passes) p 0 → result ≡ any p links }
{
    let blocks = links / WIDE_BLOCK;
    for b in 0..blocks {
        if some_within::<WIDE_BLOCK, F>(b * WIDE_BLOCK, &passes) {
            return true;
        }
    }
    lowest_from(links, blocks * WIDE_BLOCK, &passes) < links
}

// From `from` on the lowest link that passes; the number of links where there is none.
fn lowest_passing<F: Fn(usize) -> bool>(links: usize, from: usize, passes: F) -> usize
    requires callable { (i : ℕ) → i < 256 → F.pre passes i }
    requires within { (from ≤ links) × (links ≤ 256) }
    ensures { (p : ℕ → Bool) → Tells (F.post passes) p from → Passed p links from → result ≡ lowest p links }
{
    let blocks = (links - from) / BLOCK;
    for b in 0..blocks {
        let start = from + b * BLOCK;
        if some_within::<BLOCK, F>(start, &passes) {
            return lowest_from(links, start, &passes);
        }
    }
    lowest_from(links, from + blocks * BLOCK, &passes)
}

// Whether a link that leaves a is offered, taken or refused.
pub fn some_held(tails: &[u8; 256], states: &[u8; 256], count: usize, a: u8) -> bool
    ensures { result ≡ any (held tails.now states.now a) (min count 256) }
{
    some_passing(
        links_of(count),
        |i| (tails[i] == a) & state::is_live(states[i]),
    )
}

// The lowest taken link with the end a, where `ends` are the heads or the tails; the number of links where there is none.
// form: the number of links for none, which `lowest` of the clause gives, and by which a run sets the links of both wavelengths side by side.
pub fn lowest_taken(ends: &[u8; 256], states: &[u8; 256], count: usize, a: u8) -> usize
    ensures { result ≡ lowest (taken ends.now states.now a) (min count 256) }
{
    lowest_passing(
        links_of(count),
        0,
        |i| (ends[i] == a) & (states[i] == state::TAKEN),
    )
}

// The lowest link under way from `from` on; the number of links where there is none.
// form: the number of links for none, which `lowest` of the clause gives, and by which a run sets the links of both wavelengths side by side.
pub fn lowest_busy(states: &[u8; 256], count: usize, from: usize) -> usize
    ensures { result ≡ lowest (busy_from states.now from) (min count 256) }
{
    let links = links_of(count);
    if links <= from {
        return links;
    }
    lowest_passing(links, from, |i| is_under_way(states[i]))
}
