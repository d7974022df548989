// Reads a book from standard input and prints the parts of its mesh and its bridging links (docs/CORPUS.md, the program survey). A refusal of reading is the
// only line. An input that cannot be read is no empty book.
#![tactic(auto)]

ghost use Rattle.std.specs.Prelude.{◌≡◌, ◌==◌, count_by};
ghost use Rattle.std.specs.List.{enumerate_from};

use bridges::survey;
use given::read_mesh;
use mesh::Mesh;
use streams::input::read_or_say;
use streams::print::{end, field, number, word};

fn main(rt: HostRuntime) {
    // 4,096 bytes, longer than any book: what stands past them changes nothing (`long_input` in crates/guarantees/proofs/Main.antt).
    let mut space = io::buffer();
    if let Some(m) = read_or_say(
        &mut rt.stdin(),
        &mut space,
        b"survey: standard input cannot be read\n",
    )
    .and_then(read_mesh)
    {
        show_survey(&m);
    }
}

// How many parts and bridges there are, a line for each part, a line for each bridge.
fn show_survey(m: &Mesh) {
    let s = survey(*m);
    let nodes = (m.nodes as usize).min(64);
    let parts = &s.parts[..nodes];
    field(b"survey", count_parts(parts) as u64);
    number(count_bridges(&s.bridges) as u64);
    end();
    for (v, lowest) in parts.iter().enumerate() {
        if *lowest as usize == v {
            show_part(parts, *lowest);
        }
    }
    show_bridges(m, &s.bridges);
}

// The nodes that are the lowest of their parts.
fn count_parts(parts: &[u8]) -> usize
    ensures { result ≡ count_by (λ e. e.1 == e.0) (enumerate_from 0 parts.now) }
{
    parts
        .iter()
        .enumerate()
        .filter(|(v, part)| **part as usize == *v)
        .count()
}

fn count_bridges(bridges: &[u8; 256]) -> usize
    ensures { result ≡ count_by (λ mark. mark == 1) bridges.now }
{
    bridges.iter().filter(|mark| **mark == 1).count()
}

// The line of the part whose lowest node this is.
fn show_part(parts: &[u8], lowest: u8) {
    word(b"part");
    for (v, part) in parts.iter().enumerate() {
        if *part == lowest {
            number(v as u64);
        }
    }
    end();
}

// The lines of the bridges.
fn show_bridges(m: &Mesh, bridges: &[u8; 256]) {
    for (k, mark) in bridges.iter().enumerate() {
        if *mark == 1 {
            let l = m.links[k];
            field(b"bridge", k as u64);
            number(l.low as u64);
            number(l.high as u64);
            end();
        }
    }
}
