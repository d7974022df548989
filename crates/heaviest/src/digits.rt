// A number of one or two decimal digits, with or without one line feed after it.
ghost use Rattle.std.specs.Prelude.{◌≡◌, MatchOption, take};
ghost use Rattle.heaviest.specs.Input.{value_of};

const LINE_FEED: u8 = 10;

// What stands before one line feed at the end.
pub(crate) fn until_feed(input: &[u8]) -> &[u8]
    ensures { result.now ≡ take (Rattle.heaviest.specs.Input.until_feed input.now) input.now }
{
    match input {
        [front @ .., LINE_FEED] => front,
        _ => input,
    }
}

// The number that the bytes write: one digit, or two, the first of them not 0.
#[tactic(auto, unfolding(crate::specs::Input::value_of))]
pub(crate) fn number(digits: &[u8]) -> Option<u8>
    ensures { MatchOption result (value_of digits.now ≡ 0) (λ n. n ≡ value_of digits.now) }
{
    match digits {
        [a @ b'0'..=b'9'] => Some(a - b'0'),
        [a @ b'1'..=b'9', b @ b'0'..=b'9'] => Some(10 * (a - b'0') + (b - b'0')),
        _ => None,
    }
}
