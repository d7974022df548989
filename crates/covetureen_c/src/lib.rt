// The functions of covetureen for C and Rust, as a static library: each calls covetureen's of the same name. include/covetureen.h declares them.
// form: twins of covetureen's, with lent numbers for what is given, since C calls them.
#![tactic(auto)]

ghost use Rattle.std.specs.Prelude.{◌≡◌};
ghost use Rattle.planner.specs.Plan.{planned};
ghost use Rattle.one_cut.specs.OneCut.{recovered};
ghost use Rattle.bridges.specs.Survey.{surveyed};
ghost use Rattle.ducts.specs.Sharing.{shared};
ghost use Rattle.collection.specs.Collection.{collected};
ghost use Rattle.covetureen.specs.Interface.{number_of, place_of, lent_as, mesh_in, link_in, duct_in, read_answer, plan_answer, named_answer, cut_answer, survey_answer, sharing_answer, shared_links, collect_answer, collected_nodes};

// Reads a book: 0 where it is accepted, else the number of the refusal, with its place.
#[unsafe(no_mangle)]
pub extern "C" fn covetureen_check(book: &[u8], place: &mut usize) -> u8
    ensures number { result ≡ number_of (read_answer book.now) }
    ensures place { place.new ≡ place_of (read_answer book.now) }
{
    covetureen::covetureen_check(book, place)
}

// How many nodes and links the mesh of a book has.
#[unsafe(no_mangle)]
pub extern "C" fn covetureen_mesh(
    book: &[u8],
    nodes: &mut u8,
    links: &mut u16,
    place: &mut usize,
) -> u8
    ensures number { result ≡ number_of (read_answer book.now) }
    ensures nodes { nodes.new ≡ lent_as (read_answer book.now) (mesh_in book.now).nodes nodes.old }
    ensures links { links.new ≡ lent_as (read_answer book.now) (mesh_in book.now).count links.old }
    ensures place { place.new ≡ place_of (read_answer book.now) }
{
    covetureen::covetureen_mesh(book, nodes, links, place)
}

// A link of the mesh of a book: its ends, its length, its fibre pair and its duct.
#[unsafe(no_mangle)]
pub extern "C" fn covetureen_link(
    book: &[u8],
    link: u16,
    low: &mut u8,
    high: &mut u8,
    metres: &mut u16,
    pair: &mut u32,
    duct: &mut u16,
    place: &mut usize,
) -> u8
    ensures number { result ≡ number_of (named_answer book.now link) }
    ensures low { low.new ≡ lent_as (named_answer book.now link) (link_in book.now link).low low.old }
    ensures high { high.new ≡ lent_as (named_answer book.now link) (link_in book.now link).high high.old }
    ensures metres { metres.new ≡ lent_as (named_answer book.now link) (link_in book.now link).length metres.old }
    ensures pair { pair.new ≡ lent_as (named_answer book.now link) (link_in book.now link).pair pair.old }
    ensures duct { duct.new ≡ lent_as (named_answer book.now link) (duct_in book.now link) duct.old }
    ensures place { place.new ≡ place_of (named_answer book.now link) }
{
    covetureen::covetureen_link(book, link, low, high, metres, pair, duct, place)
}

// The plan of the mesh of a book: a direction for each link, 0 from its low to its high end and 1 from its high to its low end, and 0 past the last link.
#[unsafe(no_mangle)]
pub extern "C" fn covetureen_plan(book: &[u8], directions: &mut [u8; 256], place: &mut usize) -> u8
    ensures number { result ≡ number_of (plan_answer book.now) }
    ensures directions { directions.new ≡ lent_as (plan_answer book.now) (planned (mesh_in book.now)).plan.directions directions.old }
    ensures place { place.new ≡ place_of (plan_answer book.now) }
{
    covetureen::covetureen_plan(book, directions, place)
}

// The cut of one link on the plan of a book's mesh, and an unhindered run: of wavelength 1 the links of its route from x on, zeros past them, how many they
// are, how many deliveries were made on it, and the metres of its route, 4294967295 where they are not known.
#[unsafe(no_mangle)]
pub extern "C" fn covetureen_route(
    book: &[u8],
    link: u16,
    route: &mut [u16; 256],
    count: &mut u16,
    deliveries: &mut u16,
    metres: &mut u32,
    place: &mut usize,
) -> u8
    ensures number { result ≡ number_of (cut_answer book.now link) }
    ensures route { route.new ≡ lent_as (cut_answer book.now link) (recovered (mesh_in book.now) link).route.links route.old }
    ensures count { count.new ≡ lent_as (cut_answer book.now link) (recovered (mesh_in book.now) link).route.length count.old }
    ensures deliveries { deliveries.new ≡ lent_as (cut_answer book.now link) (recovered (mesh_in book.now) link).deliveries deliveries.old }
    ensures metres { metres.new ≡ lent_as (cut_answer book.now link) (recovered (mesh_in book.now) link).metres metres.old }
    ensures place { place.new ≡ place_of (cut_answer book.now link) }
{
    covetureen::covetureen_route(book, link, route, count, deliveries, metres, place)
}

// The survey of the mesh of a book: for each node the lowest node of its part, 0 past the last node, and for each link 1 where no path joins its ends without it,
// else 0, and 0 past the last link.
#[unsafe(no_mangle)]
pub extern "C" fn covetureen_survey(
    book: &[u8],
    parts: &mut [u8; 64],
    bridges: &mut [u8; 256],
    place: &mut usize,
) -> u8
    ensures number { result ≡ number_of (survey_answer book.now) }
    ensures parts { parts.new ≡ lent_as (survey_answer book.now) (surveyed (mesh_in book.now)).parts parts.old }
    ensures bridges { bridges.new ≡ lent_as (survey_answer book.now) (surveyed (mesh_in book.now)).bridges bridges.old }
    ensures place { place.new ≡ place_of (survey_answer book.now) }
{
    covetureen::covetureen_survey(book, parts, bridges, place)
}

// The links that share the duct of a link, rising and that link included: a link without a duct gives itself only.
#[unsafe(no_mangle)]
pub extern "C" fn covetureen_ducts(
    book: &[u8],
    link: u16,
    links: &mut [u16; 256],
    count: &mut usize,
    place: &mut usize,
) -> u8
    ensures number { result ≡ number_of (sharing_answer book.now link) }
    ensures links { links.new ≡ lent_as (sharing_answer book.now link) (shared_links book.now link) links.old }
    ensures count { count.new ≡ lent_as (sharing_answer book.now link) (shared (mesh_in book.now) link 256).count count.old }
    ensures place { place.new ≡ place_of (sharing_answer book.now link) }
{
    covetureen::covetureen_ducts(book, link, links, count, place)
}

// The collection route from a root: its nodes, the root first and last, zeros past them, how many entries it has, and whether each link is one of its tree.
#[unsafe(no_mangle)]
pub extern "C" fn covetureen_collect(
    book: &[u8],
    root: u8,
    route: &mut [u8; 127],
    tree: &mut [bool; 256],
    count: &mut usize,
    place: &mut usize,
) -> u8
    ensures number { result ≡ number_of (collect_answer book.now root) }
    ensures route { route.new ≡ lent_as (collect_answer book.now root) (collected_nodes book.now root) route.old }
    ensures tree { tree.new ≡ lent_as (collect_answer book.now root) (collected (mesh_in book.now) root 127).tree tree.old }
    ensures count { count.new ≡ lent_as (collect_answer book.now root) (collected (mesh_in book.now) root 127).count count.old }
    ensures place { place.new ≡ place_of (collect_answer book.now root) }
{
    covetureen::covetureen_collect(book, root, route, tree, count, place)
}
