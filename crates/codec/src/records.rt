// Reading the records of a book.
ghost use Rattle.std.specs.Prelude.{◌≡◌};
ghost use Rattle.mesh.specs.Answer.{Accepted};
ghost use Rattle.mesh.specs.Mesh.{zero_mesh};
ghost use Rattle.codec.specs.Book.{book_answer, mesh_of};

use mesh::{Mesh, Reason, zero_link};
use reader::{read_header, read_record};

// Reads book into m, which is all zero: the header's refusals, those of each record, then 10 where the last record ends before the end of the book. The
// mesh is lent, so that it is copied once. After a refusal it holds what was read until then.
pub(crate) fn read_into(book: &[u8], m: &mut Mesh) -> Result<(), Reason>
    requires { m.old ≡ zero_mesh }
    ensures answer { result ≡ book_answer book.now }
    ensures mesh { result ≡ Accepted → m.new ≡ mesh_of book.now }
{
    let h = read_header(book)?;
    let nodes = h.nodes;
    let k = h.count as usize;
    let end = book.len();
    m.nodes = nodes;
    m.count = h.count;
    let mut prev = zero_link();
    let mut at: usize = 4;
    for i in 0..k {
        let r = read_record(&book[at..], nodes, prev, at, end)?;
        let l = r.link;
        m.links[i] = l;
        m.ducts[i] = r.duct;
        prev = l;
        at += r.length;
    }
    if at < end {
        return Err(Reason {
            number: 10,
            place: at,
        });
    }
    Ok(())
}
