// The listing of a book: its mesh, its plan and what each cut leads to (01, the program meshplan).
#![tactic(auto)]

ghost use Rattle.std.specs.Prelude.{◌≡◌, IfOk, MatchResult};
ghost use Rattle.mesh.specs.Answer.{Accepted};
ghost use Rattle.codec.specs.Book.{decoded};
ghost use Rattle.clients.specs.Sessions.{begun};
ghost use Rattle.listing.specs.Listing.{list_answer};

use clients::session::begin;
use lines::print_session;
use mesh::Reason;
use recovery::Session;
use streams::held::Held;

// Prints the listing of a book to standard output. A first line holds N and L. Each link line holds number, ends and
// direction. Each cut line holds, of wavelength 1 alone, link, x, y, its own deliveries in an unhindered run, the length of its route in metres or a
// hyphen where it is not known, and the route's links from x on. A refusal of reading or planning is the only line: `refused`, number and place.
// Answers that refusal, or accepted.
pub fn print_book(book: &[u8]) -> Result<(), Reason>
    ensures { result ≡ list_answer book.now }
{
    match fresh_session(book) {
        Ok(fresh) => {
            print_session(fresh);
            Ok(())
        }
        Err(reason) => {
            print_refusal(reason);
            Err(reason)
        }
    }
}

// The session on the book's mesh and its plan, or why reading or planning refuses.
#[tactic(auto, unfolding(crate::specs::Listing::list_answer))]
fn fresh_session(book: &[u8]) -> Result<Session, Reason>
    ensures answer { MatchResult result (λ fresh. list_answer book.now ≡ Accepted) (λ reason. list_answer book.now ≡ Err reason) }
    ensures session { IfOk result (λ fresh. fresh ≡ (begun (decoded book.now).mesh).session) }
{
    let d = codec::decode(book);
    d.answer?;
    let begun = begin(d.mesh);
    begun.planning?;
    Ok(begun.session)
}

fn print_refusal(reason: Reason) {
    let mut out = Held::new();
    out.pair(b"refused", reason.number as u64, reason.place as u64);
    out.write();
}
