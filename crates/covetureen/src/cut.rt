// The route after a cut.
ghost use Rattle.std.specs.Prelude.{◌≡◌};
ghost use Rattle.one_cut.specs.OneCut.{recovered};
ghost use Rattle.covetureen.specs.Interface.{number_of, place_of, lent_as, mesh_in, cut_answer};

use crate::answer::{and_then, link_answer, tell};
use mesh::Reason;
use one_cut::recover;

// The cut of one link on the plan of a book's mesh, and an unhindered run: of wavelength 1 the links of its route from x on, zeros past them, how many they
// are, how many deliveries were made on it, and the metres of its route, 4294967295 where they are not known.
pub fn covetureen_route(
    book: &[u8],
    link: u16,
    route: &mut [u16; 256],
    count: &mut u16,
    deliveries: &mut u16,
    metres: &mut u32,
    place: &mut usize,
) -> u8
    ensures number { result ≡ number_of (cut_answer book.now link) }
    ensures route { route.new ≡ lent_as (cut_answer book.now link) (recovered (mesh_in book.now) link).route.links route.old }
    ensures count { count.new ≡ lent_as (cut_answer book.now link) (recovered (mesh_in book.now) link).route.length count.old }
    ensures deliveries { deliveries.new ≡ lent_as (cut_answer book.now link) (recovered (mesh_in book.now) link).deliveries deliveries.old }
    ensures metres { metres.new ≡ lent_as (cut_answer book.now link) (recovered (mesh_in book.now) link).metres metres.old }
    ensures place { place.new ≡ place_of (cut_answer book.now link) }
{
    let d = codec::decode(book);
    let m = d.mesh;
    let p = planner::plan(m);
    let reading = d.answer;
    let planning = p.answer;
    let planned = and_then(reading, planning);
    let a = and_then(planned, link_answer(m.count, link));
    let Ok(()) = a else {
        return tell(a, place);
    };
    let r = recover(m, link);
    let found = r.route;
    let links = found.links;
    *route = links;
    *count = found.length;
    *deliveries = r.deliveries;
    *metres = r.metres;
    tell(a, place)
}
