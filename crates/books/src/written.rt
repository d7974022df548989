// A mesh checked and encoded, and a book decoded and encoded again.
use clients::book::{reread, rewrite};
use codec::Encoded;
use mesh::Mesh;
use streams::print::{answer_line, hex, line};

// The largest output that is lent, and the longest book of the corpus.
pub const MOST_BYTES: usize = 2900;

// Checks m, encodes it into `room` bytes a5, at most 2,900, and shows them afterwards.
pub fn show_written(m: Mesh, room: usize) {
    show_output(room, |out| {
        let r = reread(m, out);
        answer_line(b"check", r.checking);
        r.writing
    });
}

// Decodes the book and encodes its mesh in the same way.
pub(crate) fn show_rewritten(book: &[u8], room: usize) {
    show_output(room, |out| rewrite(book, out).writing);
}

// What a call gives that writes into so many bytes, and these bytes afterwards.
fn show_output<F: FnOnce(&mut [u8]) -> Encoded>(room: usize, write: F)
    requires { F.IsAlwaysCallable write }
{
    let mut space = [0xa5u8; MOST_BYTES];
    if room <= MOST_BYTES {
        let out = &mut space[..room];
        let e = write(out);
        answer_line(b"write", e.answer);
        line(b"length", e.length as u64);
        hex(b"out", out);
    }
}
