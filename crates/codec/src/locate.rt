// Where one link's record stands in a book.
ghost use Rattle.std.specs.Prelude.{◌≡◌, ◌+◌, ◌≤◌, ◌<◌, IfOk, length, get_or};
ghost use Rattle.mesh.specs.Answer.{Accepted};
ghost use Rattle.fields.specs.Record.{record_length};
ghost use Rattle.codec.specs.Book.{span_answer, span_given};

use crate::records::read_into;
use fields::record_length;
use mesh::{Reason, zero_mesh};

// Where a record stands in its book: from start up to, not including, end.
#[derive(Clone, Copy)]
pub(crate) struct Span {
    pub start: usize,
    pub end: usize,
}

// Where the record of link k starts in a book that has it.
fn record_start(book: &[u8], k: usize) -> usize
    requires { span_answer book.now k ≡ Accepted }
    ensures value { result ≡ Rattle.codec.specs.Book.record_start book.now k }
    ensures within { result < length book.now }
    ensures whole { result + record_length (get_or book.now result 0) ≤ length book.now }
{
    let mut at: usize = 4;
    for _i in 0..k {
        at += record_length(book[at]);
    }
    at
}

// The record of a link: reading's refusals, then 12, else its start and end.
pub(crate) fn find_record(book: &[u8], link: u16) -> Result<Span, Reason>
    ensures value { result ≡ span_given book.now link }
    ensures order { IfOk result (λ span. span.start ≤ span.end) }
    ensures within { IfOk result (λ span. span.end ≤ length book.now) }
{
    let mut m = zero_mesh();
    read_into(book, &mut m)?;
    let k = link as usize;
    if m.count <= link {
        return Err(Reason {
            number: 12,
            place: k,
        });
    }
    let start = record_start(book, k);
    let end = start + record_length(book[start]);
    Ok(Span { start, end })
}
