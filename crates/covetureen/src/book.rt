// A book: whether it is accepted, its mesh, one of its links, and its plan.
ghost use Rattle.std.specs.Prelude.{◌≡◌};
ghost use Rattle.planner.specs.Plan.{planned};
ghost use Rattle.covetureen.specs.Interface.{number_of, place_of, lent_as, mesh_in, link_in, duct_in, read_answer, plan_answer, named_answer};

use crate::answer::{and_then, link_answer, tell};
use crate::entries::{duct_of, link_of};
use mesh::Reason;

// Reads a book: 0 where it is accepted, else the number of the refusal, with its place.
pub fn covetureen_check(book: &[u8], place: &mut usize) -> u8
    ensures number { result ≡ number_of (read_answer book.now) }
    ensures place { place.new ≡ place_of (read_answer book.now) }
{
    let d = codec::decode(book);
    let answer = d.answer;
    tell(answer, place)
}

// How many nodes and links the mesh of a book has.
pub fn covetureen_mesh(book: &[u8], nodes: &mut u8, links: &mut u16, place: &mut usize) -> u8
    ensures number { result ≡ number_of (read_answer book.now) }
    ensures nodes { nodes.new ≡ lent_as (read_answer book.now) (mesh_in book.now).nodes nodes.old }
    ensures links { links.new ≡ lent_as (read_answer book.now) (mesh_in book.now).count links.old }
    ensures place { place.new ≡ place_of (read_answer book.now) }
{
    let d = codec::decode(book);
    let reading = d.answer;
    let Ok(()) = reading else {
        return tell(reading, place);
    };
    let m = d.mesh;
    *nodes = m.nodes;
    *links = m.count;
    tell(reading, place)
}

// A link of the mesh of a book: its ends, its length, its fibre pair and its duct.
pub fn covetureen_link(
    book: &[u8],
    link: u16,
    low: &mut u8,
    high: &mut u8,
    metres: &mut u16,
    pair: &mut u32,
    duct: &mut u16,
    place: &mut usize,
) -> u8
    ensures number { result ≡ number_of (named_answer book.now link) }
    ensures low { low.new ≡ lent_as (named_answer book.now link) (link_in book.now link).low low.old }
    ensures high { high.new ≡ lent_as (named_answer book.now link) (link_in book.now link).high high.old }
    ensures metres { metres.new ≡ lent_as (named_answer book.now link) (link_in book.now link).length metres.old }
    ensures pair { pair.new ≡ lent_as (named_answer book.now link) (link_in book.now link).pair pair.old }
    ensures duct { duct.new ≡ lent_as (named_answer book.now link) (duct_in book.now link) duct.old }
    ensures place { place.new ≡ place_of (named_answer book.now link) }
{
    let d = codec::decode(book);
    let m = d.mesh;
    let reading = d.answer;
    let named = and_then(reading, link_answer(m.count, link));
    let Ok(()) = named else {
        return tell(named, place);
    };
    let l = link_of(m, link);
    *low = l.low;
    *high = l.high;
    *metres = l.length;
    *pair = l.pair;
    *duct = duct_of(m, link);
    tell(named, place)
}

// The plan of the mesh of a book: a direction for each link, 0 from its low to its high end and 1 from its high to its low end, and 0 past the last link.
pub fn covetureen_plan(book: &[u8], directions: &mut [u8; 256], place: &mut usize) -> u8
    ensures number { result ≡ number_of (plan_answer book.now) }
    ensures directions { directions.new ≡ lent_as (plan_answer book.now) (planned (mesh_in book.now)).plan.directions directions.old }
    ensures place { place.new ≡ place_of (plan_answer book.now) }
{
    let d = codec::decode(book);
    let m = d.mesh;
    let p = planner::plan(m);
    let reading = d.answer;
    let planning = p.answer;
    let plan = p.plan;
    let found = plan.directions;
    let planned = and_then(reading, planning);
    let Ok(()) = planned else {
        return tell(planned, place);
    };
    *directions = found;
    tell(planned, place)
}
