// Books: read and written again, meshes written and read again, and one byte of a record.
ghost use Rattle.std.specs.Prelude.{◌≡◌, length, take};
ghost use Rattle.codec.specs.Book.{decoded, output_after};
ghost use Rattle.clients.specs.Books.{rewritten, Rewrites, reread, Rereads, record_byte};

use crate::{RecordByte, Reread, Rewritten};
use codec::Decoded;
use mesh::Mesh;

// Reads a book and writes its mesh: an accepted book comes out as it is, where there is room for it.
pub fn rewrite(book: &[u8], out: &mut [u8]) -> Rewritten
    ensures answers { result ≡ rewritten book.now (length out.old) }
    ensures output { out.new ≡ output_after (decoded book.now).mesh out.old }
    ensures inverse { Rewrites book.now out.old out.new }
{
    let read = codec::decode(book);
    let writing = codec::encode(read.mesh, out);
    Rewritten {
        reading: read.answer,
        writing,
    }
}

// Reads the book of so many bytes at the front of `out`.
fn read_front(out: &[u8], n: usize) -> Decoded
    ensures { result ≡ decoded (take n out.now) }
{
    codec::decode(&out[..n.min(out.len())])
}

// Checks a mesh, writes it and reads what was written: a mesh that passes the checks comes back, where there is room for its book.
pub fn reread(m: Mesh, out: &mut [u8]) -> Reread
    ensures answers { result ≡ reread m out.old }
    ensures output { out.new ≡ output_after m out.old }
    ensures inverse { Rereads m result }
{
    let checking = mesh::check(m);
    let writing = codec::encode(m, out);
    let reading = read_front(out, writing.length);
    Reread {
        checking,
        writing,
        reading,
    }
}

// Byte i of a link's record, 0 past its end, and the answer to showing the record.
pub fn record_byte(book: &[u8], link: u16, i: usize) -> RecordByte
    ensures { result ≡ record_byte book.now link i }
{
    RecordByte {
        byte: codec::record_bytes(book, link).get(i).copied().unwrap_or(0),
        answer: codec::record_answer(book, link),
    }
}
