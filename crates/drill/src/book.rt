// The book of the drill that an input asks for.
ghost use Rattle.std.specs.Prelude.{IfSome};
ghost use Rattle.io.specs.Counts.{IsPrefixLen};
ghost use Rattle.drill.specs.Written.{Writes};

use mesh::Reason;

// Writes it to the front of out and answers how many bytes it has. For an input that asks for none there is none, and out stays as it was.
pub(crate) fn write_drill(input: &[u8], out: &mut [u8]) -> Option<usize>
    ensures book { Writes input.now out.old out.new result }
    ensures within { IfSome result (λ n. IsPrefixLen n out.new) }
{
    let m = heaviest::middles(heaviest::read(input));
    let encoded = codec::encode(heaviest::drill(m), out);
    let Ok(()) = encoded.answer else {
        return None;
    };
    Some(encoded.length)
}
