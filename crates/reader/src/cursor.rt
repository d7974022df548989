// Reading the fields of a record in turn.
ghost use Rattle.std.specs.Prelude.{◌≡◌, cond, false, ◌⊎◌, ◌+◌, ◌/◌, ◌≤◌, ◌<◌, ◌^◌, length, get_or};
ghost use Rattle.scan.specs.Bytes.{number};
ghost use Rattle.fields.specs.Field.{odd};
ghost use Rattle.fields.specs.Record.{fields_at, reserved, record_length};

use crate::number::number_at;
use fields::{DUCT, Fields, HIGH, LENGTH, LOW, PAIR};
use mesh::Link;

// A place among the fields of the record at the front of s: the bit map from the next field's bit on, and where that field's bytes would start.
#[derive(Clone, Copy, Debug)]
struct Cursor<'a> {
    s: &'a [u8],
    bits: u8,
    at: usize,
}

impl Cursor<'_> {
    // Reads the next field, of w bytes: its bytes where its bit stands, else its absent value.
    fn next(&mut self, w: usize, absent: u32) -> u32
        requires w_bound { w ≤ 4 }
        requires w_in_bounds { self.old.at + cond (odd self.old.bits) w 0 ≤ length self.old.s.now }
        ensures s { self.new.s ≡ self.old.s }
        ensures bits { self.new.bits ≡ self.old.bits / 2 }
        ensures at { self.new.at ≡ self.old.at + cond (odd self.old.bits) w 0 }
        ensures value { result ≡ cond (odd self.old.bits) (number w self.old.s.now self.old.at) absent }
        ensures within { (result < 256 ^ w) ⊎ (result ≡ absent) }
    {
        let stands = self.bits % 2 == 1;
        self.bits /= 2;
        if !stands {
            return absent;
        }
        let value = number_at(self.s, self.at, w);
        self.at += w;
        value
    }
}

// The fields of the record at the front of s, all of whose bytes are there, after the link prev.
pub(crate) fn fields_at(s: &[u8], prev: Link) -> Fields
    requires s_nonzero { 0 < length s.now }
    requires s_value { reserved (get_or s.now 0 0) ≡ false }
    requires s_in_bounds { record_length (get_or s.now 0 0) ≤ length s.now }
    ensures { result ≡ fields_at prev s.now }
{
    let mut cursor = Cursor {
        s,
        bits: s[0],
        at: 1,
    };
    let low = cursor.next(LOW, prev.low as u32) as u8;
    let high = cursor.next(HIGH, low as u32 + 1) as u16;
    let length = cursor.next(LENGTH, 0) as u16;
    let pair = cursor.next(PAIR, 0);
    let duct = cursor.next(DUCT, 0) as u16;
    Fields {
        low,
        high,
        length,
        pair,
        duct,
    }
}
