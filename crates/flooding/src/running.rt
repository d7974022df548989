// A run on both wavelengths, on the arcs and the flood of each, which are lent: those of wavelength 1 and then those of wavelength 2.
ghost use Rattle.std.specs.Prelude.{ℕ, min};
ghost use Rattle.flood.specs.Machine.{step};
ghost use Rattle.flood.specs.Lent.{graph_on, failure_on};
ghost use Rattle.wavelengths.specs.Wavelength.{each, pair};
ghost use Rattle.flooding.specs.Ended.{Ended, Turned};

use flood::{Arcs, Flood};
use states::links_of;

// What a run did: how many deliveries it made on both together, and whether no link is under way on either then.
#[derive(Clone, Copy, Debug, PartialEq, Eq)]
pub struct Outcome {
    pub made: u32,
    pub rest: bool,
}

// A delivery on link k of one flood, and the search for the lowest link under way after it.
fn turn(arcs: &Arcs, flood: &mut Flood, k: usize) -> usize
    ensures { (n : ℕ) → Turned (min arcs.now.count 256) flood.old.states k flood.new
        (step (graph_on n arcs.now) (failure_on arcs.now) k flood.old) result }
{
    let from = delivery::step(arcs, flood, k);
    searches::lowest_busy(&flood.states, arcs.count, from)
}

// Deliveries on the lowest link under way on either wavelength, on wavelength 1 before 2, until rest or until as many are made as allowed.
// A delivery changes one flood, so that the lowest link under way on the other wavelength stays as it was found.
pub fn run(
    first: &Arcs,
    flood1: &mut Flood,
    second: &Arcs,
    flood2: &mut Flood,
    allowance: u32,
) -> Outcome
    ensures { (n : ℕ) → Ended
        (each (graph_on n first.now) (graph_on n second.now))
        (each (failure_on first.now) (failure_on second.now))
        allowance (pair flood1.old flood2.old) (pair flood1.new flood2.new)
        result.made result.rest }
{
    let links1 = links_of(first.count);
    let links2 = links_of(second.count);
    let mut j = searches::lowest_busy(&flood1.states, first.count, 0);
    let mut k = searches::lowest_busy(&flood2.states, second.count, 0);
    for made in 0..allowance {
        if (j < links1) & ((j <= k) | (links2 <= k)) {
            j = turn(first, flood1, j);
        } else if k < links2 {
            k = turn(second, flood2, k);
        } else {
            return Outcome { made, rest: true };
        }
    }
    Outcome {
        made: allowance,
        rest: (links1 <= j) & (links2 <= k),
    }
}
