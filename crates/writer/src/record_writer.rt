// Writing one record.
ghost use Rattle.std.specs.Prelude.{◌≡◌, ◌+◌, ◌≤◌, length};
ghost use Rattle.std.proofs.lemmas.List.Edits.{sets};
ghost use Rattle.fields.specs.Field.{field, field_bytes};
ghost use Rattle.fields.specs.Record.{as_fields, longest_record, record_of};

use crate::number::Pen;
use fields::{DUCT, Fields, HIGH, LENGTH, LOW, PAIR, bit_map, record_length};
use mesh::Link;

// The fields of a link with this duct number.
pub(crate) fn widened(l: Link, duct: u16) -> Fields
    ensures { result ≡ as_fields l duct }
{
    Fields {
        low: l.low,
        high: l.high as u16,
        length: l.length,
        pair: l.pair,
        duct,
    }
}

// The length of the record of these fields after prev.
pub(crate) fn length_of(prev: Link, f: Fields) -> usize
    ensures value { result ≡ length (record_of prev f) }
    ensures within { result ≤ longest_record }
{
    record_length(bit_map(prev, f))
}

impl Pen<'_> {
    // Stores a field of w bytes unless it has its absent value.
    fn put_field(&mut self, w: usize, value: u32, absent: u32)
        requires { self.old.at + length (field_bytes (field w value absent)) ≤ length self.old.out.now }
        ensures output { self.new.out.ghost_name ≡ self.old.out.ghost_name }
        ensures next { self.new.at ≡ self.old.at + length (field_bytes (field w value absent)) }
        ensures stored { self.new.out.now ≡ sets self.old.out.now self.old.at (field_bytes (field w value absent)) }
    {
        if value != absent {
            self.put_bytes(w, value);
        }
    }
}

// Stores the record of these fields after prev at the front of out, its fields and then its bit map, and answers its length.
pub(crate) fn put_record(out: &mut [u8], prev: Link, f: Fields) -> usize
    requires { length (record_of prev f) ≤ length out.old }
    ensures next { result ≡ length (record_of prev f) }
    ensures stored { out.new ≡ sets out.old 0 (record_of prev f) }
{
    let mut pen = Pen { out, at: 1 };
    pen.put_field(LOW, f.low as u32, prev.low as u32);
    pen.put_field(HIGH, f.high as u32, f.low as u32 + 1);
    pen.put_field(LENGTH, f.length as u32, 0);
    pen.put_field(PAIR, f.pair, 0);
    pen.put_field(DUCT, f.duct as u32, 0);
    pen.out[0] = bit_map(prev, f);
    pen.at
}
