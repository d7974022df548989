// Tests on a link's state: 0 quiet, 1 offered, 2 taken, 3 refused, 4 released.
ghost use Rattle.std.specs.Prelude.{◌≡◌};
ghost use Rattle.flood.specs.Machine.{live};

// form: numbers and no enum, since 01 gives the states these numbers and has them decided by match, and the searches compare them as bytes.
pub const QUIET: u8 = 0;

pub const OFFERED: u8 = 1;

pub const TAKEN: u8 = 2;

// Offered, taken or refused.
#[tactic(auto, using(std::proofs::lemmas::Bool::Decides::nat_tests), unfolding(flood::specs::Machine::live))]
pub fn is_live(v: u8) -> bool
    ensures { result ≡ live v }
{
    match v {
        1..=3 => true,
        0 | 4 | 5..=255 => false,
    }
}
