// Ducts: the links that share the duct of a link, and the lowest link in a duct.
ghost use Rattle.std.specs.Prelude.{◌≡◌, ◌<◌, min, eqb, length, take};
ghost use Rattle.std.specs.Option.{SomeIff};
ghost use Rattle.scan.specs.Lowest.{lowest};
ghost use Rattle.mesh.specs.Answer.{Accepted};
ghost use Rattle.mesh.specs.WellFormed;
ghost use Rattle.ducts.specs.Sharing.{shared, output_after};
ghost use Rattle.ducts.specs.Meaning.{Lists};

use ducts::Shared;
use mesh::Mesh;

// The query by duct: where it is accepted, what it wrote lists exactly the links that share the duct, each once, rising.
pub fn sharing(m: Mesh, link: u16, out: &mut [u16]) -> Shared
    ensures answer { result ≡ shared m link (length out.old) }
    ensures output { out.new ≡ output_after m link out.old }
    ensures listed { result.answer ≡ Accepted → Lists m link (take result.count out.new) }
{
    ducts::sharing(m, link, out)
}

// The lowest link with this duct number, where there is one.
pub fn lowest_in(m: Mesh, duct: u16) -> Option<u16>
    ensures { let links = min m.count 256 in
        let k = lowest (λ i. eqb (WellFormed.duct m i) duct) links in SomeIff result (k < links) k }
{
    let links = m.count.min(256);
    for i in 0..links {
        if m.ducts[usize::from(i)] == duct {
            return Some(i);
        }
    }
    None
}
