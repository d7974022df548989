// Reads a number of middle nodes from standard input and writes the book of the heaviest drill with so many (02, request 6): its bytes and nothing
// else. Another input gives the line `refused`. Where the input cannot be read, it says so on stderr alone.
#![tactic(auto)]

mod book;

use book::write_drill;
use streams::input::read_or_say;
use streams::print::word;

// One byte more than the longest good input, two digits and a line feed: what stands past them changes nothing (`drill_long_input` in
// crates/guarantees/proofs/Main.antt).
const MOST_INPUT: usize = 4;

fn main(rt: HostRuntime) {
    let mut space = [0u8; MOST_INPUT];
    if let Some(input) = read_or_say(
        &mut rt.stdin(),
        &mut space,
        b"drill: standard input cannot be read\n",
    ) {
        answer(input);
    }
}

// 4,096 bytes have room for any book.
fn answer(input: &[u8]) {
    let mut book = io::buffer();
    match write_drill(input, &mut book) {
        Some(n) => word(&book[..n]),
        None => word(b"refused\n"),
    }
}
