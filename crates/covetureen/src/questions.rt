// The survey, the query by duct and the collection route.
ghost use Rattle.std.specs.Prelude.{◌≡◌};
ghost use Rattle.bridges.specs.Survey.{surveyed};
ghost use Rattle.ducts.specs.Sharing.{shared};
ghost use Rattle.collection.specs.Collection.{collected};
ghost use Rattle.covetureen.specs.Interface.{number_of, place_of, lent_as, mesh_in, survey_answer, sharing_answer, shared_links, collect_answer, collected_nodes};

use crate::answer::{and_then, tell};
use mesh::Reason;

// The survey of the mesh of a book: for each node the lowest node of its part, 0 past the last node, and for each link 1 where no path joins its ends without it,
// else 0, and 0 past the last link.
pub fn covetureen_survey(
    book: &[u8],
    parts: &mut [u8; 64],
    bridges: &mut [u8; 256],
    place: &mut usize,
) -> u8
    ensures number { result ≡ number_of (survey_answer book.now) }
    ensures parts { parts.new ≡ lent_as (survey_answer book.now) (surveyed (mesh_in book.now)).parts parts.old }
    ensures bridges { bridges.new ≡ lent_as (survey_answer book.now) (surveyed (mesh_in book.now)).bridges bridges.old }
    ensures place { place.new ≡ place_of (survey_answer book.now) }
{
    let d = codec::decode(book);
    let m = d.mesh;
    let s = bridges::survey(m);
    let reading = d.answer;
    let checking = s.answer;
    let found_parts = s.parts;
    let found_bridges = s.bridges;
    let surveyed = and_then(reading, checking);
    let Ok(()) = surveyed else {
        return tell(surveyed, place);
    };
    *parts = found_parts;
    *bridges = found_bridges;
    tell(surveyed, place)
}

// The links that share the duct of a link, rising and that link included: a link without a duct gives itself only.
pub fn covetureen_ducts(
    book: &[u8],
    link: u16,
    links: &mut [u16; 256],
    count: &mut usize,
    place: &mut usize,
) -> u8
    ensures number { result ≡ number_of (sharing_answer book.now link) }
    ensures links { links.new ≡ lent_as (sharing_answer book.now link) (shared_links book.now link) links.old }
    ensures count { count.new ≡ lent_as (sharing_answer book.now link) (shared (mesh_in book.now) link 256).count count.old }
    ensures place { place.new ≡ place_of (sharing_answer book.now link) }
{
    let d = codec::decode(book);
    let m = d.mesh;
    let mut found = [0u16; 256];
    let s = ducts::sharing(m, link, &mut found);
    let reading = d.answer;
    let asked = s.answer;
    let shared = and_then(reading, asked);
    let Ok(()) = shared else {
        return tell(shared, place);
    };
    *links = found;
    *count = s.count;
    tell(shared, place)
}

// The collection route from a root: its nodes, the root first and last, zeros past them, how many entries it has, and whether each link is one of its tree.
pub fn covetureen_collect(
    book: &[u8],
    root: u8,
    route: &mut [u8; 127],
    tree: &mut [bool; 256],
    count: &mut usize,
    place: &mut usize,
) -> u8
    ensures number { result ≡ number_of (collect_answer book.now root) }
    ensures route { route.new ≡ lent_as (collect_answer book.now root) (collected_nodes book.now root) route.old }
    ensures tree { tree.new ≡ lent_as (collect_answer book.now root) (collected (mesh_in book.now) root 127).tree tree.old }
    ensures count { count.new ≡ lent_as (collect_answer book.now root) (collected (mesh_in book.now) root 127).count count.old }
    ensures place { place.new ≡ place_of (collect_answer book.now root) }
{
    let d = codec::decode(book);
    let m = d.mesh;
    let mut found = [0u8; 127];
    let c = collection::collect(m, root, &mut found);
    let reading = d.answer;
    let asked = c.answer;
    let labels = c.tree;
    let collected = and_then(reading, asked);
    let Ok(()) = collected else {
        return tell(collected, place);
    };
    *route = found;
    *tree = labels;
    *count = c.count;
    tell(collected, place)
}
