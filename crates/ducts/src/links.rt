// The links of a mesh that share the duct of one of them.
ghost use Rattle.std.specs.Prelude.{◌≡◌, ◌≤◌, ◌<◌, ◌++◌, drop, length};
ghost use Rattle.mesh.specs.WellFormed.{duct};
ghost use Rattle.ducts.specs.Sharing.{shares, sharing};

use mesh::Mesh;

// Whether link i shares the duct of link k.
fn is_shared(m: &Mesh, k: usize, i: usize) -> bool
    requires { (k < 256) × (i < 256) }
    ensures { result ≡ shares (duct m.now) k i }
{
    i == k || m.ducts[k] != 0 && m.ducts[i] == m.ducts[k]
}

// How many links share the duct of link k.
pub(crate) fn count(m: &Mesh, k: usize) -> usize
    requires { (m.now.count ≤ 256) × (k < m.now.count) }
    ensures { result ≡ length (sharing m.now k) }
{
    let links = m.count as usize;
    (0..links).filter(|i| is_shared(m, k, *i)).count()
}

// Stores their numbers at the front of out, rising.
pub(crate) fn list(m: &Mesh, k: usize, out: &mut [u16])
    requires link { (m.now.count ≤ 256) × (k < m.now.count) }
    requires room { length (sharing m.now k) ≤ length out.old }
    ensures { out.new ≡ sharing m.now k ++ drop (length (sharing m.now k)) out.old }
{
    let mut n = 0;
    for i in 0..m.count {
        if is_shared(m, k, i as usize) {
            out[n] = i;
            n += 1;
        }
    }
}
