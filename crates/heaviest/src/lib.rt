// The heaviest drill (02, request 6): its number of middle nodes read from an input, and its mesh.
#![tactic(auto)]

ghost use Rattle.std.specs.Prelude.{◌≡◌};
ghost use Rattle.heaviest.specs.Input.{middles_of, asked};
ghost use Rattle.heaviest.specs.Drill.{drill_of};

mod digits;
mod spans;

use mesh::Mesh;

// The most middle nodes: with the two outer ones they are 64.
pub const MOST: u8 = 62;

// Whether there is a drill with so many middle nodes.
fn is_size(m: u8) -> bool
    ensures { result ≡ Rattle.heaviest.specs.Drill.is_size m }
{
    matches!(m, 1..=MOST)
}

// 02's input: m from 1 to 62 in decimal without leading zeros, with or without one line feed after it. Any other input is refused.
#[tactic(auto, unfolding(crate::specs::Input::asked))]
pub fn read(input: &[u8]) -> Option<u8>
    ensures { result ≡ asked input.now }
{
    match digits::number(digits::until_feed(input)) {
        Some(m) if is_size(m) => Some(m),
        _ => None,
    }
}

// How many middle nodes an input asked for; 0 where it was refused.
// form: 0 where it was refused, which the clause says and the drill of 0 middle nodes, the all-zero mesh, rests on.
pub fn middles(asked: Option<u8>) -> u8
    ensures { result ≡ middles_of asked }
{
    asked.unwrap_or(0)
}

// 02's mesh: middle nodes 0 to m - 1, each linked to nodes m and m + 1, and a link between these two. For any other number than 1 to 62 it is
// the all-zero mesh, which no call accepts.
#[tactic(auto, unfolding(crate::specs::Drill::drill_of))]
pub fn drill(m: u8) -> Mesh
    ensures { result ≡ drill_of m }
{
    if is_size(m) {
        return Mesh {
            links: spans::spans(m),
            nodes: m + 2,
            count: 2 * (m as u16) + 1,
            ducts: [0; 256],
        };
    }
    mesh::zero_mesh()
}
