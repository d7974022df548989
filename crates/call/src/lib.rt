// One call that a letter and a number say: the session that it returns or leaves, and its answer as numbers.
#![tactic(auto)]

ghost use Rattle.std.specs.Prelude.{◌≡◌};
ghost use Rattle.std.specs.Fn.{FnOnceReturnsAtMut};
ghost use Rattle.call.specs.Encoding.{call_of};
ghost use Rattle.call.specs.Record.{made_change, made_delivery, made_run, made_of};

mod answer;

use recovery::{Change, Delivery, Run, Session};

// An answer as four numbers: which case it is, and its values.
// form: a number for each case, since lists::make_calls stores the answers in a lent slice of numbers, and reply-told reads the answers off them.
#[derive(Clone, Copy)]
pub struct Numbers {
    pub case: u64,
    pub first: u64,
    pub second: u64,
    pub third: u64,
}

// A call made: the session that it returns or leaves, and its answer.
#[derive(Clone, Copy)]
pub struct Made {
    pub session: Session,
    pub answer: Numbers,
}

impl Made {
    fn new<A: Into<Numbers>>(session: Session, answer: A) -> Made
        ensures session { result.session ≡ session }
        ensures answer { A.converts answer result.answer }
    {
        Made {
            session,
            answer: answer.into(),
        }
    }
}

impl From<Change> for Made {
    ghost from_gives = { λ c m. m ≡ made_change c };

    fn from(c: Change) -> Made {
        Made::new(c.session, c.answer)
    }
}

impl From<Delivery> for Made {
    ghost from_gives = { λ d m. m ≡ made_delivery d };

    fn from(d: Delivery) -> Made {
        Made::new(d.session, d.answer)
    }
}

impl From<Run> for Made {
    ghost from_gives = { λ r m. m ≡ made_run r };

    fn from(r: Run) -> Made {
        Made::new(r.session, r.report)
    }
}

// A call in place, on a session that is lent to it.
fn lend<F: FnOnce(&mut Session) -> Numbers>(s: Session, call: F) -> Made
    requires { F.IsAlwaysCallable call }
    ensures { FnOnceReturnsAtMut F.FnOnce call s result.answer result.session }
{
    let mut session = s;
    let answer = call(&mut session);
    Made { session, answer }
}

// The call that a letter and a number say, made on s.
pub fn make_call(s: Session, letter: u8, n: u32) -> Made
    ensures { result ≡ made_of (call_of letter n) s }
{
    let link = (n % 65536) as u16;
    let named = (n / 256 % 65536) as u16;
    let wavelength = (n % 256) as u8;
    // form: a match on a byte, since make_calls takes the letters of a list as bytes and call_of has a call for every one of them.
    match letter {
        b'C' => Made::from(s.cut(link)),
        b'D' => Made::from(s.deliver(named, wavelength)),
        b'M' => Made::from(s.mend(link)),
        b'c' => lend(s, |lent| Numbers::from(in_place::cut(lent, link))),
        b'd' => lend(
            s,
            |lent| Numbers::from(in_place::deliver(lent, named, wavelength)),
        ),
        b'm' => lend(s, |lent| Numbers::from(in_place::mend(lent, link))),
        b'R' => Made::from(s.run(n)),
        _ => Made::new(s, s.status(named, wavelength)),
    }
}
