// A book, shown or listed.
use books::show_book;
use books::written::MOST_BYTES;
use streams::input::{next_bytes, next_two};
use streams::print::{end, field, line, number};

// A book, and what the library reads from it and writes for it.
pub(crate) fn run_book(case: u64) {
    let room = usize::from(next_two());
    let link = next_two();
    let length = usize::from(next_two());
    field(b"book", case);
    number(length as u64);
    end();
    let mut space = [0u8; MOST_BYTES];
    let came = next_bytes(&mut space, length);
    show_book(&space[..came], room, link);
}

// A book, and what meshplan prints for it.
pub(crate) fn run_listed(case: u64) {
    line(b"listing", case);
    let mut space = [0u8; MOST_BYTES];
    let came = next_bytes(&mut space, usize::from(next_two()));
    let _ = listing::print_book(&space[..came]);
}
