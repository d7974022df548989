// The entries of a mesh, zero past the last.
ghost use Rattle.std.specs.Prelude.{◌≡◌};
ghost use Rattle.mesh.specs.WellFormed.{link, duct};

use mesh::{Link, Mesh};

// Link k.
pub fn link_of(m: Mesh, k: u16) -> Link
    ensures { result ≡ link m k }
{
    m.links
        .get(usize::from(k))
        .copied()
        .unwrap_or(mesh::zero_link())
}

// The duct number of link k.
pub fn duct_of(m: Mesh, k: u16) -> u16
    ensures { result ≡ duct m k }
{
    m.ducts.get(usize::from(k)).copied().unwrap_or(0)
}
