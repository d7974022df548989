// The codec of the book: decode, encode, and the bytes of one record.
#![tactic(auto)]

ghost use Rattle.std.specs.Prelude.{◌≡◌, length};
ghost use Rattle.codec.specs.Book.{decoded, encoded, output_after, span_answer, span_of, record_part, offset};

mod locate;
mod records;

use locate::Span;
use mesh::{Mesh, Reason, zero_mesh};

// The length of the longest book: an output of this length has room for any.
pub const LONGEST_BOOK: usize = writer::LONGEST_BOOK;

// What reading gives: the mesh, all zero on a refusal.
// form: no Result, since by 01 a refused read gives the all-zero mesh, and the theorems `decode_encode` and `book_unique` speak of this record.
#[derive(Clone, Copy)]
pub struct Decoded {
    pub mesh: Mesh,
    pub answer: Result<(), Reason>,
}

// What writing gives: the length of the book, 0 on a refusal.
// form: no Result, since the theorems `encode_accepted`, `encode_short` and `encode_refused` speak of this record.
#[derive(Clone, Copy)]
pub struct Encoded {
    pub length: usize,
    pub answer: Result<(), Reason>,
}

// 01's reading: the mesh of a book.
#[tactic(auto, unfolding(crate::specs::Book::decoded))]
pub fn decode(book: &[u8]) -> Decoded
    ensures { result ≡ decoded book.now }
{
    let mut mesh = zero_mesh();
    let answer = records::read_into(book, &mut mesh);
    if answer.is_err() {
        mesh = zero_mesh();
    }
    Decoded { mesh, answer }
}

// 01's writing: the book of m at the front of out. Bytes past the book stay as they were, and all of out on a refusal.
#[tactic(auto, unfolding(crate::specs::Book::encoded))]
pub fn encode(m: Mesh, out: &mut [u8]) -> Encoded
    ensures answer { result ≡ encoded m (length out.old) }
    ensures output { out.new ≡ output_after m out.old }
{
    match writer::write_book(m, out) {
        Ok(length) => Encoded {
            length,
            answer: Ok(()),
        },
        Err(reason) => Encoded {
            length: 0,
            answer: Err(reason),
        },
    }
}

// The answer to showing the record of a link: reading's refusals, then 12.
pub fn record_answer(book: &[u8], link: u16) -> Result<(), Reason>
    ensures { result ≡ span_answer book.now link }
{
    locate::find_record(book, link)?;
    Ok(())
}

// The bytes of a link's record as they stand in the book: the part of the caller's own slice that starts where the record
// does, the empty part on a refusal. Equal bytes elsewhere in the book are not the record.
pub fn record_bytes(book: &[u8], link: u16) -> &[u8]
    ensures place { result.ref_ptr ≡ offset (span_of book.now link).start book.entry.ref_ptr }
    ensures bytes { result.now ≡ record_part book.now link }
{
    let Ok(Span { start, end }) = locate::find_record(book, link) else {
        return &book[0..0];
    };
    &book[start..end]
}
