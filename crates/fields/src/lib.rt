// The layout of a record, which the reader and the writer share: bit map, widths, absent values.
#![tactic(auto)]

ghost use Rattle.std.specs.Prelude.{◌≡◌, cond, ◌≤◌};
ghost use Rattle.fields.specs.Field.{field, sum, differs, bit_map, odd, extent};
ghost use Rattle.fields.specs.Record.{fields_of, widths, longest_record, record_length};
ghost use Rattle.scan.specs.Total.{bit};

use mesh::Link;

// How many bytes each field takes.
pub const LOW: usize = 1;

pub const HIGH: usize = 1;

pub const LENGTH: usize = 2;

pub const PAIR: usize = 4;

pub const DUCT: usize = 2;

// How many bytes the bit map and all fields take.
pub const LONGEST_RECORD: usize = 1 + LOW + HIGH + LENGTH + PAIR + DUCT;

// The lowest number with a bit past that of the last field.
const RESERVED: u8 = 32;

// The fields of a link. An absent high end can be 256, so it is wider than a link's.
#[derive(Clone, Copy, Debug, PartialEq, Eq)]
pub struct Fields {
    pub low: u8,
    pub high: u16,
    pub length: u16,
    pub pair: u32,
    pub duct: u16,
}

// Whether a reserved bit stands in the bit map b.
pub fn reserved(b: u8) -> bool
    ensures { result ≡ Rattle.fields.specs.Record.reserved b }
{
    RESERVED <= b
}

// How many bytes a field of w bytes takes whose bit is the lowest of b.
fn taken(b: u8, w: usize) -> usize
    ensures value { result ≡ cond (odd b) w 0 }
    ensures within { result ≤ w }
{
    if b % 2 == 1 { w } else { 0 }
}

// How many bytes the fields take whose bits stand in b.
fn fields_length(b: u8) -> usize
    ensures value { result ≡ extent widths b }
    ensures within { result ≤ sum widths }
{
    taken(b, LOW)
        + taken(b / 2, HIGH)
        + taken(b / 2 / 2, LENGTH)
        + taken(b / 2 / 2 / 2, PAIR)
        + taken(b / 2 / 2 / 2 / 2, DUCT)
}

// The length of a record with the bit map b; 0 where a reserved bit stands.
// form: a number and not an Option: the definition record_length, a table of 256 numbers by bit map, and README.md's list of functions hold it
#[tactic(auto, unfolding(crate::specs::Record::record_length))]
pub fn record_length(b: u8) -> usize
    ensures value { result ≡ record_length b }
    ensures within { result ≤ longest_record }
{
    if reserved(b) { 0 } else { 1 + fields_length(b) }
}

// 1 where a field differs from its absent value, else 0.
fn flag(value: u32, absent: u32) -> u8
    ensures value { result ≡ bit (differs (field 0 value absent)) }
    ensures within { result ≤ 1 }
{
    u8::from(value != absent)
}

// The bit map of these fields after the link prev.
#[tactic(auto, unfolding(crate::specs::Field::bit_map))]
pub fn bit_map(prev: Link, f: Fields) -> u8
    ensures { result ≡ bit_map (fields_of prev f) }
{
    let low = flag(f.low as u32, prev.low as u32);
    let high = flag(f.high as u32, f.low as u32 + 1);
    let length = flag(f.length as u32, 0);
    let pair = flag(f.pair, 0);
    let duct = flag(f.duct as u32, 0);
    low + 2 * (high + 2 * (length + 2 * (pair + 2 * duct)))
}
