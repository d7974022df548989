// The collection route: where it is accepted, all that 02 says of a route holds of what was written and of the labels.
ghost use Rattle.std.specs.Prelude.{◌≡◌, length, take};
ghost use Rattle.mesh.specs.Answer.{Accepted};
ghost use Rattle.nets.specs.Nets.{net_of};
ghost use Rattle.depth_first.specs.Folded.{Folded};
ghost use Rattle.collection.specs.Collection.{tree_of, collected, output_after};

use collection::Collected;
use mesh::Mesh;

pub fn collect(m: Mesh, root: u8, out: &mut [u8]) -> Collected
    ensures answer { result ≡ collected m root (length out.old) }
    ensures output { out.new ≡ output_after m root out.old }
    ensures folded { result.answer ≡ Accepted → Folded (net_of m) root (tree_of m root) (take result.count out.new) result.tree }
{
    collection::collect(m, root, out)
}
