// Writing a book.
#![tactic(auto)]

mod header;
mod number;
mod record_writer;
mod room;

ghost use Rattle.std.specs.Prelude.{◌≡◌, ◌≤◌, length};
ghost use Rattle.std.proofs.lemmas.List.Edits.{sets};
ghost use Rattle.writer.specs.Written.{book_of, written, output_after};

use fields::LONGEST_RECORD;
use header::put_header;
use mesh::{Mesh, Reason, zero_link};
use record_writer::{put_record, widened};
use room::lacking;

// The length of the longest book: an output of this length has room for any.
pub const LONGEST_BOOK: usize = 4 + 256 * LONGEST_RECORD;

// Stores the book of m at the front of out, which has room for it, and answers where it ends.
fn put_book(m: &Mesh, out: &mut [u8]) -> usize
    requires few { m.now.count ≤ 256 }
    requires room { length (book_of m.now) ≤ length out.old }
    ensures next { result ≡ length (book_of m.now) }
    ensures stored { out.new ≡ sets out.old 0 (book_of m.now) }
{
    let mut at = put_header(out, m.nodes, m.count);
    let mut prev = zero_link();
    for k in 0..m.count as usize {
        let l = m.links[k];
        at += put_record(&mut out[at..], prev, widened(l, m.ducts[k]));
        prev = l;
    }
    at
}

// Stores the book of m at the front of out, and answers its length: the mesh checks, then 11. Bytes past the book stay as they were, and all of out on a refusal.
pub fn write_book(m: Mesh, out: &mut [u8]) -> Result<usize, Reason>
    ensures answer { result ≡ written m (length out.old) }
    ensures output { out.new ≡ output_after m out.old }
{
    let mut ends = [0u16; 256];
    let zeros = mesh::split(&m, &mut ends);
    mesh::parts_answer(m.nodes, m.count, zeros, &ends)?;
    if let Some(needed) = lacking(&m, out.len()) {
        return Err(Reason {
            number: 11,
            place: needed,
        });
    }
    Ok(put_book(&m, out))
}
