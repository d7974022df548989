// Whether an output has room for a book.
ghost use Rattle.std.specs.Prelude.{◌≡◌, ◌≤◌, length};
ghost use Rattle.writer.specs.Written.{book_of};

use crate::LONGEST_BOOK;
use crate::record_writer::{length_of, widened};
use mesh::{Mesh, zero_link};

// How many bytes the book of m has.
fn book_length(m: &Mesh) -> usize
    requires { m.now.count ≤ 256 }
    ensures { result ≡ length (book_of m.now) }
{
    let mut prev = zero_link();
    let mut n: usize = 4;
    for i in 0..m.count as usize {
        let l = m.links[i];
        n += length_of(prev, widened(l, m.ducts[i]));
        prev = l;
    }
    n
}

// How many bytes the book of m has where `room` bytes are not enough for it. They are counted only where the longest book would not fit.
pub(crate) fn lacking(m: &Mesh, room: usize) -> Option<usize>
    requires { m.now.count ≤ 256 }
    ensures { result ≡ Rattle.writer.specs.Written.lacking m.now room }
{
    if LONGEST_BOOK <= room {
        return None;
    }
    let length = book_length(m);
    if room < length { Some(length) } else { None }
}
