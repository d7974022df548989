// Tests on a link's state, and counts over the states of the links, on arrays that are lent. Of the links that are said to be there the first 256
// count.
#![tactic(auto)]

ghost use Rattle.std.specs.Prelude.{◌≡◌, min};
ghost use Rattle.flood.specs.Machine.{under_way};

pub mod count;
pub mod state;

// How many of `count` links the arrays have room for.
pub fn links_of(count: usize) -> usize
    ensures { result ≡ min count 256 }
{
    count.min(256)
}

// Whether a link in state v is under way: offered or refused.
#[tactic(auto, using(std::proofs::lemmas::Bool::Decides::nat_tests), unfolding(flood::specs::Machine::under_way))]
pub fn is_under_way(v: u8) -> bool
    ensures { result ≡ under_way v }
{
    match v {
        1 | 3 => true,
        0 | 2 | 4 | 5..=255 => false,
    }
}
