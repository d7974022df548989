// Reads a book from standard input and prints its listing (01, the program meshplan). An input that cannot be read is no empty book.
#![tactic(auto)]

use listing::print_book;
use streams::input::read_or_say;

fn main(rt: HostRuntime) {
    // 4,096 bytes, longer than any book: what stands past them changes nothing (`long_input` in crates/guarantees/proofs/Main.antt).
    let mut space = io::buffer();
    if let Some(book) = read_or_say(
        &mut rt.stdin(),
        &mut space,
        b"meshplan: standard input cannot be read\n",
    ) {
        let _ = print_book(book);
    }
}
