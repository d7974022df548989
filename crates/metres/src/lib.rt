// The length of links: a number of metres, or not known.
#![tactic(auto)]

ghost use Rattle.std.specs.Prelude.{◌≡◌, cond};

// The length of links with this sum of metres, by whether one of them is not measured.
pub fn length_of(metres: u32, unmeasured: bool) -> Option<u32>
    ensures { result ≡ cond unmeasured None (Some metres) }
{
    if unmeasured {
        return None;
    }
    Some(metres)
}
