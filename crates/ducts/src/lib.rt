// The query by duct: which links share the duct of a link (02, request 4).
#![tactic(auto)]

ghost use Rattle.std.specs.Prelude.{◌≡◌, length};
ghost use Rattle.mesh.specs.Answer.{Refused};
ghost use Rattle.ducts.specs.Sharing.{shared_as, shared, output_after};

mod links;

use mesh::{Mesh, Reason};

// What the query gives: how many links were listed, 0 on a refusal.
// form: no Result, since a refusal counts no link, which the clause of `sharing` and the theorem `ducts_refused` say of this record.
#[derive(Clone, Copy)]
pub struct Shared {
    pub count: usize,
    pub answer: Result<(), Reason>,
}

fn refused(number: u8, place: usize) -> Shared
    ensures { result ≡ shared_as (Refused number place) 0 }
{
    let answer = Err(Reason { number, place });
    Shared { count: 0, answer }
}

// 02's query: the numbers of all links that share the duct of `link`, rising and that link included, at the front of out; a link without a
// duct gives itself only. The mesh checks, 12, then 11 with the entries needed. Entries past the answer stay as they were, and all of out on
// a refusal.
pub fn sharing(m: Mesh, link: u16, out: &mut [u16]) -> Shared
    ensures answer { result ≡ shared m link (length out.old) }
    ensures output { out.new ≡ output_after m link out.old }
{
    let a = mesh::check(m);
    let Ok(()) = a else {
        return Shared {
            count: 0,
            answer: a,
        };
    };
    let k = link as usize;
    if m.count <= link {
        return refused(12, k);
    }
    let needed = links::count(&m, k);
    if out.len() < needed {
        return refused(11, needed);
    }
    links::list(&m, k, out);
    Shared {
        count: needed,
        answer: Ok(()),
    }
}
