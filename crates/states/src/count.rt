// Counts over the states of the first links.
ghost use Rattle.std.specs.Prelude.{◌≡◌, ℕ, ◌<◌, ◌≤◌, min};
ghost use Rattle.scan.specs.Entry.{at};
ghost use Rattle.scan.specs.Total.{total};
ghost use Rattle.flood.specs.Machine.{weight};
ghost use Rattle.flood.specs.Topology.{under_way_of, had_of};

use crate::{is_under_way, links_of};

// What f gives for their states, summed up; at most 127 for each.
fn total<F: Fn(u8) -> u16>(states: &[u8; 256], count: usize, f: F) -> u16
    ghost value: { ℕ → ℕ }
    requires callable { F.IsAlwaysCallable f }
    requires gives { (v : ℕ) (n : ℕ) → F.post f v n → (n ≡ value v) × (n ≤ 127) }
    ensures { result ≡ total (λ i. value (at states.now i)) (min count 256) }
{
    let mut n = 0;
    for &v in &states[..links_of(count)] {
        n += f(v);
    }
    n
}

// How many of them are under way.
#[tactic(auto, unfolding(flood::specs::Topology::under_way_of, scan::specs::Total::count))]
pub fn under_way(states: &[u8; 256], count: usize) -> u16
    ensures { result ≡ under_way_of count states.now }
{
    total(states, count, |v| is_under_way(v) as u16)
}

// How many deliveries a link in state v has had.
fn weight_of(v: u8) -> u16
    ensures value { result ≡ weight v }
    ensures most { result ≤ 127 }
{
    (v / 2) as u16
}

// How many deliveries they have had.
#[tactic(auto, unfolding(flood::specs::Topology::had_of))]
pub fn deliveries(states: &[u8; 256], count: usize) -> u16
    ensures { result ≡ had_of count states.now }
{
    total(states, count, weight_of)
}
