// Writing the header of a book.
ghost use Rattle.std.specs.Prelude.{◌≡◌, ◌∷◌, ◌≤◌, length};
ghost use Rattle.std.proofs.lemmas.List.Edits.{sets};
ghost use Rattle.scan.specs.Bytes.{bytes};
ghost use Rattle.writer.specs.Written.{version};

use crate::number::Pen;

// The version byte that is written.
const VERSION: u8 = 1;

// Stores version, N and L at the front of out, and answers where they end.
pub(crate) fn put_header(out: &mut [u8], nodes: u8, count: u16) -> usize
    requires { 4 ≤ length out.old }
    ensures next { result ≡ 4 }
    ensures stored { out.new ≡ sets out.old 0 (version ∷ (nodes ∷ bytes 2 count)) }
{
    out[0] = VERSION;
    out[1] = nodes;
    let mut pen = Pen { out, at: 2 };
    pen.put_bytes(2, count as u32);
    pen.at
}
