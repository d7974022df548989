// The failure and one delivery, on the arcs of a digraph and on a flood over it, which are lent. A delivery past the arcs changes nothing, and a node past 63
// is never reached.
// A delivery on link k says below which link none is under way where none was below k: there the next search starts.
#![tactic(auto)]

ghost use Rattle.std.specs.Prelude.{◌≡◌, ℕ, ◌<◌, min, true, List, set};
ghost use Rattle.scan.specs.Entry.{has};
ghost use Rattle.flood.specs.Machine.{begin, arrive, withdraw, step};
ghost use Rattle.flood.specs.Lent.{graph, failure, graph_on, failure_on};
ghost use Rattle.delivery.specs.Moved.{Moved};

use flood::{Arcs, Flood};
use states::links_of;

fn is_reached(reached: &[bool], v: u8) -> bool
    ensures { result ≡ has reached.now v }
{
    reached.get(v as usize).copied().unwrap_or(false)
}

fn reach(reached: &mut [bool], v: u8)
    ensures { reached.new ≡ set reached.old v true }
{
    let i = v as usize;
    if i < reached.len() {
        reached[i] = true;
    }
}

// The failure: the source is reached, and every link that leaves it and may be offered becomes offered, whatever the heads and the target.
pub fn begin(arcs: &Arcs, flood: &mut Flood)
    ensures { (n y : ℕ) (h : List ℕ) → flood.new
        ≡ begin (graph n arcs.now.tails h (min arcs.now.count 256))
        (failure arcs.now.tails arcs.now.starts arcs.now.source y) flood.old }
{
    reach(&mut flood.reached, arcs.source);
    offers::offer_all(
        &arcs.tails,
        &arcs.starts,
        &mut flood.states,
        arcs.count,
        arcs.source,
    );
}

// A delivery on the offered link k.
fn arrive(arcs: &Arcs, flood: &mut Flood, k: usize) -> usize
    requires { k < min arcs.now.count 256 }
    ensures { (n : ℕ) → Moved flood.old.states k flood.new
        (arrive (graph_on n arcs.now) (failure_on arcs.now) k flood.old) result }
{
    let b = arcs.heads[k];
    if is_reached(&flood.reached, b) {
        flood.states[k] = 3;
        return k;
    }
    reach(&mut flood.reached, b);
    if b == arcs.target {
        flood.states[k] = 2;
        return k;
    }
    if offers::offer_quiet(&arcs.tails, &arcs.starts, &mut flood.states, arcs.count, b) {
        flood.states[k] = 2;
        return 0;
    }
    flood.states[k] = 3;
    k
}

// A delivery on the refused link k.
fn withdraw(arcs: &Arcs, flood: &mut Flood, k: usize) -> usize
    requires { k < min arcs.now.count 256 }
    ensures { (n : ℕ) → Moved flood.old.states k flood.new
        (withdraw (graph_on n arcs.now) (failure_on arcs.now) k flood.old) result }
{
    let a = arcs.tails[k];
    flood.states[k] = 4;
    if a == arcs.source {
        return k;
    }
    if searches::some_held(&arcs.tails, &flood.states, arcs.count, a) {
        return k;
    }
    let j = searches::lowest_taken(&arcs.heads, &flood.states, arcs.count, a);
    if links_of(arcs.count) <= j {
        return k;
    }
    flood.states[j] = 3;
    j.min(k)
}

// A delivery on link k; nothing changes where k is not under way.
pub fn step(arcs: &Arcs, flood: &mut Flood, k: usize) -> usize
    ensures { (n : ℕ) → Moved flood.old.states k flood.new
        (step (graph_on n arcs.now) (failure_on arcs.now) k flood.old) result }
{
    if links_of(arcs.count) <= k {
        return k;
    }
    let v = flood.states[k];
    // form: 01 has a delivery decide by a match on the state's number, and the searches compare the states as bytes
    match v {
        1 => arrive(arcs, flood, k),
        3 => withdraw(arcs, flood, k),
        0 | 2 | 4 | 5..=255 => k,
    }
}
