// The lines of a book: what the library reads from it, writes again, and shows of one record (docs/CORPUS.md, lines of a book).
#![tactic(auto)]

pub mod entries;
pub mod written;

use crate::entries::{count_rest, show_links};
use crate::written::show_rewritten;
use mesh::Mesh;
use streams::print::{answer_line, end, field, hex, line, number};

// Decodes the book, encodes its mesh again into `room` bytes, and shows the record of one link.
pub fn show_book(book: &[u8], room: usize, link: u16) {
    let d = codec::decode(book);
    answer_line(b"read", d.answer);
    show_mesh(&d.mesh);
    show_rewritten(book, room);
    show_record(book, link);
}

fn show_record(book: &[u8], link: u16) {
    answer_line(b"record", codec::record_answer(book, link));
    hex(b"part", codec::record_bytes(book, link));
}

fn show_mesh(m: &Mesh) {
    field(b"mesh", m.nodes as u64);
    number(m.count as u64);
    end();
    show_links(m);
    line(b"rest", count_rest(m) as u64);
}
