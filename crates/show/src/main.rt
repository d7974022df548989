// Reads a book from standard input and prints what the library reads from it, writes for it, and shows of its first record
// (docs/CORPUS.md, the program show). An input that cannot be read is no empty book.
#![tactic(auto)]

ghost use Rattle.std.specs.Prelude.{◌≡◌, ◌+◌, ◌<◌, ◌≤◌};
ghost use Rattle.codec.specs.Book.{longest_book};

use books::show_book;
use codec::LONGEST_BOOK;
use streams::input::read_or_say;
use streams::print::line;

fn main(rt: HostRuntime) {
    // 4,096 bytes, longer than any book: what stands past them changes no answer (`long_input` in crates/guarantees/proofs/Main.antt).
    let mut space = io::buffer();
    if let Some(book) = read_or_say(
        &mut rt.stdin(),
        &mut space,
        b"show: standard input cannot be read\n",
    ) {
        line(b"book", book.len() as u64);
        show_book(book, room(book.len()), 0);
    }
}

// The size of the output that is lent to encode: two bytes more than the book, where that can be accepted.
fn room(length: usize) -> usize
    ensures book { length ≤ longest_book → result ≡ length + 2 }
    ensures longer { longest_book < length → result ≡ 2 }
{
    if length <= LONGEST_BOOK {
        length + 2
    } else {
        2
    }
}
