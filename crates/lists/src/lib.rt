// A list of calls on one session, each on the session as the call before returned or left it.
#![tactic(auto)]

ghost use Rattle.std.specs.Prelude.{◌≡◌, ◌+◌, ◌<◌, length};
ghost use Rattle.std.proofs.lemmas.List.Edits.{sets};
ghost use Rattle.history.specs.History.{after, answers};
ghost use Rattle.lists.specs.Lists.{calls_of, list_of, written};

use call::{Numbers, make_call};
use recovery::Session;

// Stores the four numbers of an answer from index `at` on.
fn put_answer(out: &mut [u64], at: usize, a: Numbers)
    requires { at + 3 < length out.old }
    ensures { out.new ≡ sets out.old at (list_of a) }
{
    out[at..at + 4].copy_from_slice(&[a.case, a.first, a.second, a.third]);
}

// Makes the calls that the letters and numbers say (`calls_of`), in turn, as many as the output has room for. The session at the end is the one after
// those calls; the output holds their answers, four numbers each, and past them what it held before.
pub fn make_calls(s: Session, letters: &[u8], numbers: &[u32], out: &mut [u64]) -> Session
    ensures session { result ≡ after (calls_of letters.now numbers.now (length out.old)) s }
    ensures output { out.new ≡ written (answers (calls_of letters.now numbers.now (length out.old)) s) out.old }
{
    let calls = letters.len().min(out.len() / 4);
    let mut session = s;
    for i in 0..calls {
        let made = make_call(session, letters[i], numbers.get(i).copied().unwrap_or(0));
        session = made.session;
        put_answer(out, 4 * i, made.answer);
    }
    session
}
