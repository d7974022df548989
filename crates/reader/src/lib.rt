// Reading the header of a book, and one record.
#![tactic(auto)]

mod cursor;
mod number;

ghost use Rattle.std.specs.Prelude.{◌≡◌, ◌<◌};
ghost use Rattle.mesh.specs.Answer.{Refused};
ghost use Rattle.fields.specs.Record.{as_link};
ghost use Rattle.reader.specs.Read.{known_version, header_read, record_read};

use cursor::fields_at;
use fields::{Fields, bit_map, record_length, reserved};
use mesh::{Link, Reason, count_fits, ends_answer, nodes_fit};
use number::number_at;

// The version byte that is read.
const VERSION: u8 = 1;

// A header: its numbers of nodes and links.
#[derive(Clone, Copy)]
pub struct Header {
    pub nodes: u8,
    pub count: u16,
}

// A record: its link with the link's duct number, and how many bytes it takes.
#[derive(Clone, Copy)]
pub struct Record {
    pub link: Link,
    pub duct: u16,
    pub length: usize,
}

// Whether b is a version that is read.
fn known_version(b: u8) -> bool
    ensures { result ≡ known_version b }
{
    b == VERSION
}

fn refused<T>(number: u8, place: usize) -> Result<T, Reason>
    ensures { result ≡ Refused number place }
{
    Err(Reason { number, place })
}

// The header of a book: 1 (under 4 bytes), 2, 3, 4.
#[tactic(auto, unfolding(crate::specs::Read::header_answer, crate::specs::Read::header_read))]
pub fn read_header(book: &[u8]) -> Result<Header, Reason>
    ensures { result ≡ header_read book.now }
{
    let end = book.len();
    if end < 4 {
        return refused(1, end);
    }
    if !known_version(book[0]) {
        return refused(2, 0);
    }
    let nodes = book[1];
    if !nodes_fit(nodes) {
        return refused(3, 1);
    }
    let count = number_at(book, 2, 2) as u16;
    if !count_fits(count) {
        return refused(4, 2);
    }
    Ok(Header { nodes, count })
}

// The link with these fields, whose ends are bytes.
fn narrowed(f: Fields) -> Link
    requires { f.high < 256 }
    ensures { result ≡ as_link f }
{
    Link {
        low: f.low,
        high: f.high as u8,
        length: f.length,
        pair: f.pair,
    }
}

// The record at the front of s, which stands at `at` in a book of `end` bytes, after the link prev: 1, 5, 1, 9, 7, 6, 8.
pub fn read_record(s: &[u8], nodes: u8, prev: Link, at: usize, end: usize) -> Result<Record, Reason>
    ensures { result ≡ record_read nodes end prev at s.now }
{
    if s.len() == 0 {
        return refused(1, end);
    }
    let b = s[0];
    if reserved(b) {
        return refused(5, at);
    }
    let length = record_length(b);
    if s.len() < length {
        return refused(1, end);
    }
    let f = fields_at(s, prev);
    if bit_map(prev, f) != b {
        return refused(9, at);
    }
    ends_answer(nodes, prev, f.low as usize, f.high as usize, at)?;
    Ok(Record {
        link: narrowed(f),
        duct: f.duct,
        length,
    })
}
