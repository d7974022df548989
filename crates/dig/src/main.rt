// Reads a book, a letter and a number from standard input, and prints the links that share the duct of a link, or those in a duct
// (docs/CORPUS.md, the program dig). A refusal of reading is the only line, and so is a duct without a link.
#![tactic(auto)]

ghost use Rattle.std.specs.Prelude.{◌≢◌, ◌<◌, min};
ghost use Rattle.std.specs.Option.{SomeIff};
ghost use Rattle.dig.specs.Dig.{first_in};

use books::entries::show_link;
use clients::duct::{lowest_in, sharing};
use given::next_mesh;
use mesh::{Mesh, Reason};
use streams::input::{next_byte, next_two};
use streams::print::{answer, end, field, number, word};

fn main() {
    if let Some(m) = next_mesh() {
        let letter = next_byte();
        show_dig(&m, letter, next_two());
    }
}

// By a link or by a duct; another letter has no answer.
fn show_dig(m: &Mesh, letter: u8, n: u16) {
    match letter {
        b'L' => show_sharing(m, n),
        b'D' => show_duct(m, n),
        _ => {}
    }
}

// The lowest link in a duct, and all links in it.
fn show_duct(m: &Mesh, duct: u16) {
    field(b"duct", duct as u64);
    match lowest_link(m, duct) {
        Some(k) => {
            field(b" lowest", k as u64);
            end();
            show_sharing(m, k);
        }
        None => word(b" none\n"),
    }
}

// The lowest link in a duct; none where no link lies in it, as in duct 0, which is none.
fn lowest_link(m: &Mesh, duct: u16) -> Option<u16>
    ensures { SomeIff result ((duct ≢ 0) × (first_in m.now duct < min m.now.count 256)) (first_in m.now duct) }
{
    if duct == 0 { None } else { lowest_in(*m, duct) }
}

// The answer to the query by duct, with the number of links, and a line for each of them.
fn show_sharing(m: &Mesh, k: u16) {
    let mut links = [0u16; 256];
    let r = sharing(*m, k, &mut links);
    field(b"sharing", k as u64);
    answer(r.answer);
    let Ok(()) = r.answer else {
        end();
        return;
    };
    number(r.count as u64);
    end();
    for link in links.iter().take(r.count) {
        show_entry(m, *link);
    }
}

// The line of link k; none past the last entry.
fn show_entry(m: &Mesh, k: u16) {
    if 255 < k {
        return;
    }
    show_link(k as u64, m.links[k as usize], m.ducts[k as usize]);
}
