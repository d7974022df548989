// The mesh of a book that a program is given.
#![tactic(auto)]

ghost use Rattle.std.specs.Prelude.{◌≡◌, ◌↔◌, IsSome, IfSome};
ghost use Rattle.mesh.specs.Answer.{Accepted};
ghost use Rattle.mesh.specs.Mesh.{mesh_answer};
ghost use Rattle.codec.specs.Book.{decoded};

use mesh::{Mesh, Reason};
use streams::input::next_counted;
use streams::print::answer_line;

// The mesh of a book; where reading refuses the book, the refusal is printed, and there is none.
pub fn read_mesh(book: &[u8]) -> Option<Mesh>
    ensures accepted { IsSome result ↔ ((decoded book.now).answer ≡ Accepted) }
    ensures mesh { IfSome result (λ m. m ≡ (decoded book.now).mesh) }
{
    let d = codec::decode(book);
    let Ok(()) = d.answer else {
        answer_line(b"read", d.answer);
        return None;
    };
    Some(d.mesh)
}

// The same for the book that comes next on standard input, after its length.
pub fn next_mesh() -> Option<Mesh>
    ensures { IfSome result (λ m. mesh_answer m ≡ Accepted) }
{
    // 4,096 bytes, longer than any book.
    let mut space = io::buffer();
    read_mesh(next_counted(&mut space))
}
