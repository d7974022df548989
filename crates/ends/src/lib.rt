// The quick tests of a mesh's links, on the ends of all as numbers, 256 × low + high: two passes without a branch, which the compiler makes
// wide compares of. Where they say yes each link passes; where they say no nothing is said.
#![tactic(auto)]

ghost use Rattle.std.specs.Prelude.{◌≡◌, true, ℕ, ◌+◌, ◌<◌, ◌≤◌, min};
ghost use Rattle.ends.specs.Ends.{low_of, high_of, Fits, Rising};

// How many entries there are.
const ENTRIES: usize = 256;

// How many entries a block has.
const BLOCK: usize = 16;

// Where the last whole block starts.
const LAST_BLOCK: usize = 240;

// The lower of two numbers.
pub fn lower(i: usize, j: usize) -> usize
    ensures { result ≡ min i j }
{
    i.min(j)
}

// The low and the high end of a link whose ends are this number.
pub fn low_of(e: u16) -> u8
    ensures { result ≡ low_of e }
{
    (e / 256) as u8
}

pub fn high_of(e: u16) -> u8
    ensures { result ≡ high_of e }
{
    (e % 256) as u8
}

// Whether a test passes on each entry from `from` to below `end`: without a branch.
fn each_passes<F: Fn(usize) -> bool>(from: usize, end: usize, passes: F) -> bool
    requires callable { (i : ℕ) → from ≤ i → i < end → F.pre passes i }
    ensures { result ≡ true → (i : ℕ) → from ≤ i → i < end → F.post passes i true }
{
    let mut each = true;
    for i in from..end {
        each = each & passes(i);
    }
    each
}

// Whether the low end of each of the first entries is below its high end, and that a node.
pub fn fit(nodes: u8, count: usize, ends: &[u16; 256]) -> bool
    ensures { result ≡ true → (i : ℕ) → i < min count 256 → Fits nodes ends.now i }
{
    let n = nodes as u16;
    each_passes(0, lower(count, ENTRIES), |i| {
        let e = ends[i];
        (e / 256 < e % 256) & (e % 256 < n)
    })
}

// Whether each entry of the block at `from` is 0 or not below the entry before it.
fn rise_within(ends: &[u16; 256], from: usize) -> bool
    requires { (1 ≤ from) × (from + 16 ≤ 256) }
    ensures { result ≡ true → (i : ℕ) → from ≤ i → i < from + 16 → Rising ends.now i }
{
    each_passes(from, from + BLOCK, |i| {
        let e = ends[i];
        let last = ends[i - 1];
        (e == 0) | (last <= e)
    })
}

// Whether each of the first entries but entry 0 is 0 or not below the entry before it. The last block is whole, so that no entry is tested by
// itself: where there is a fault among entries past the first `count`, it answers false too.
pub fn rise(count: usize, ends: &[u16; 256]) -> bool
    ensures { result ≡ true → (i : ℕ) → 0 < i → i < min count 256 → Rising ends.now i }
{
    let links = lower(count, ENTRIES);
    for b in 0..links.div_ceil(BLOCK) {
        if !rise_within(ends, lower(1 + b * BLOCK, LAST_BLOCK)) {
            return false;
        }
    }
    true
}
