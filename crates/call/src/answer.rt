// Answers as numbers.
ghost use Rattle.std.specs.Prelude.{◌≡◌};
ghost use Rattle.call.specs.Record.{numbers, refusal_numbers, change_numbers, delivered_numbers, report_numbers, status_numbers};

use crate::Numbers;
use flooding::running::Outcome;
use mesh::Reason;
use recovery::Delivered;
use status::LinkStatus;

impl Numbers {
    fn new(case: u64, first: u64, second: u64, third: u64) -> Numbers
        ensures { result ≡ numbers case first second third }
    {
        Numbers {
            case,
            first,
            second,
            third,
        }
    }

    fn refusal(number: u8, place: usize) -> Numbers
        ensures { result ≡ refusal_numbers number place }
    {
        Numbers::new(0, u64::from(number), place as u64, 0)
    }
}

impl From<Result<(), Reason>> for Numbers {
    ghost from_gives = { λ a n. n ≡ change_numbers a };

    fn from(a: Result<(), Reason>) -> Numbers {
        match a {
            Ok(()) => Numbers::new(1, 0, 0, 0),
            Err(Reason { number, place }) => Numbers::refusal(number, place),
        }
    }
}

impl From<Delivered> for Numbers {
    ghost from_gives = { λ d n. n ≡ delivered_numbers d };

    fn from(d: Delivered) -> Numbers {
        match d {
            Delivered::Taken(v) => Numbers::new(2, u64::from(v), 0, 0),
            Delivered::TurnedBack(v) => Numbers::new(3, u64::from(v), 0, 0),
            Delivered::Released(v) => Numbers::new(4, u64::from(v), 0, 0),
            Delivered::Refused { number, place } => Numbers::refusal(number, place),
        }
    }
}

impl From<Result<Outcome, Reason>> for Numbers {
    ghost from_gives = { λ r n. n ≡ report_numbers r };

    fn from(r: Result<Outcome, Reason>) -> Numbers {
        match r {
            Ok(Outcome { made, rest }) => Numbers::new(5, u64::from(made), u64::from(rest), 0),
            Err(Reason { number, place }) => Numbers::refusal(number, place),
        }
    }
}

impl From<Result<LinkStatus, Reason>> for Numbers {
    ghost from_gives = { λ t n. n ≡ status_numbers t };

    fn from(t: Result<LinkStatus, Reason>) -> Numbers {
        match t {
            Ok(
                LinkStatus {
                    state,
                    under_way,
                    route: Some(metres),
                },
            ) => Numbers::new(6, u64::from(state), u64::from(under_way), u64::from(metres)),
            Ok(
                LinkStatus {
                    state,
                    under_way,
                    route: None,
                },
            ) => Numbers::new(7, u64::from(state), u64::from(under_way), 0),
            Err(Reason { number, place }) => Numbers::refusal(number, place),
        }
    }
}
