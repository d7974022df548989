// Offers: one pass over the links, without a branch, so that the compiler takes many links at a time.
#![tactic(auto)]

ghost use Rattle.std.specs.Prelude.{◌≡◌, ℕ, Bool, ◌&&◌, min, cond};
ghost use Rattle.scan.specs.Entry.{at};
ghost use Rattle.scan.specs.Lowest.{any};
ghost use Rattle.scan.specs.Sweep.{sweep_to};
ghost use Rattle.flood.specs.Lent.{leaving, opening};

use states::{links_of, state};

// The new state of a link in state v: offered where p holds.
fn offered(p: bool, v: u8) -> u8
    ensures { result ≡ cond p 1 v }
{
    if p { state::OFFERED } else { v }
}

// Every link that leaves a and may be offered becomes offered, where its state passes. Whether there is one. Link i may be offered where starts[i] is
// its tail.
fn offer<F: Fn(u8) -> bool>(
    tails: &[u8; 256],
    starts: &[u8; 256],
    states: &mut [u8; 256],
    count: usize,
    a: u8,
    passes: F,
) -> bool
    ghost p: { ℕ → Bool }
    requires callable { F.IsAlwaysCallable passes }
    requires says { (v : ℕ) (t : Bool) → F.post passes v t → t ≡ p v }
    ensures value { result ≡ any (λ i. leaving tails.now starts.now a i && p (at states.old i)) (min count 256) }
    ensures states_after { states.new
        ≡ sweep_to (λ i v. cond (leaving tails.now starts.now a i && p v) 1 v) (min count 256) states.old }
{
    let links = links_of(count);
    let mut found = false;
    for i in 0..links {
        let v = states[i];
        let leaves = (tails[i] == a) & (starts[i] == a);
        let opens = leaves & passes(v);
        states[i] = offered(opens, v);
        found = found | opens;
    }
    found
}

// Every link that leaves a and may be offered becomes offered, whatever its state.
pub fn offer_all(tails: &[u8; 256], starts: &[u8; 256], states: &mut [u8; 256], count: usize, a: u8)
    ensures { states.new
        ≡ sweep_to (λ i v. cond (leaving tails.now starts.now a i) 1 v) (min count 256) states.old }
{
    offer(tails, starts, states, count, a, |_| true);
}

// Every quiet one becomes offered. Whether there is one.
pub fn offer_quiet(
    tails: &[u8; 256],
    starts: &[u8; 256],
    states: &mut [u8; 256],
    count: usize,
    a: u8,
) -> bool
    ensures value { result ≡ any (λ i. opening tails.now starts.now a i (at states.old i)) (min count 256) }
    ensures states_after { states.new
        ≡ sweep_to (λ i v. cond (opening tails.now starts.now a i v) 1 v) (min count 256) states.old }
{
    offer(tails, starts, states, count, a, |v| v == state::QUIET)
}
