// The links of the drill with m middle nodes.
ghost use Rattle.std.specs.Prelude.{◌≤◌, ◌≡◌};
ghost use Rattle.heaviest.specs.Drill.{drill};

use mesh::{Link, zero_link};

fn span(low: u8, high: u8) -> Link
    ensures { result ≡ Rattle.heaviest.specs.Drill.span low high }
{
    Link {
        low,
        high,
        ..zero_link()
    }
}

// The links of each middle node, to node m and to node m + 1, then the link between these two.
pub(crate) fn spans(m: u8) -> [Link; 256]
    requires { m ≤ 62 }
    ensures { result ≡ (drill m).links }
{
    let mut links = [zero_link(); 256];
    let far = m + 1;
    for i in 0..m {
        let k = 2 * (i as usize);
        links[k] = span(i, m);
        links[k + 1] = span(i, far);
    }
    links[2 * (m as usize)] = span(m, far);
    links
}
