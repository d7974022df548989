// Lines of words and numbers, held in a buffer until it is written.
ghost use Rattle.std.specs.Prelude.{◌≡◌, ◌≤◌, ℕ, List, [], ◌∷◌, ◌++◌, take};
ghost use Rattle.streams.specs.Lines.{kept, line_end, AddsNumber, AddsPair};

use crate::print;
use std::marker::Model;

// The size of the buffer, and from where on it counts as full: what is left there has room for any line of up to 2,048 bytes.
pub const SIZE: usize = 16384;

const FULL: usize = SIZE - 2048;

// The bytes that are held. One past the buffer's end is left out.
// form: no `Copy`, which the check lacks for an `impl Model` whose value does not give the fields back.
#[derive(Clone, Drop)]
pub struct Held {
    bytes: [u8; SIZE],
    used: usize,
}

impl Model for Held {
    ghost Value = { List ℕ };

    ghost view = { λ h. take h.used h.bytes };

    ghost invariant = { λ h. h.used ≤ 16384 };
}

impl Held {
    pub fn new() -> Self
        ensures { result ≡ [] }
    {
        Held {
            bytes: [0; SIZE],
            used: 0,
        }
    }

    pub fn word(&mut self, text: &[u8])
        ensures { self.new ≡ kept (self.old ++ text.now) }
    {
        let n = text.len().min(SIZE - self.used);
        let end = self.used + n;
        self.bytes[self.used..end].copy_from_slice(&text[..n]);
        self.used = end;
    }

    // A space and a number.
    // form: `write!` answers a Result at each piece, which every caller would have to take, and here nothing fails: a byte without room is left out.
    pub fn number(&mut self, n: u64)
        ensures { AddsNumber self.old self.new n }
    {
        self.word(b" ");
        let mut digits = [0u8; 20];
        let count = io::decimal(n, &mut digits);
        self.word(&digits[..count]);
    }

    // A space and a hyphen, where there is no number.
    pub fn hyphen(&mut self)
        ensures { self.new ≡ kept (self.old ++ 32 ∷ 45 ∷ []) }
    {
        self.word(b" -");
    }

    // A word and a number.
    pub fn field(&mut self, text: &[u8], n: u64)
        ensures { AddsNumber (self.old ++ text.now) self.new n }
    {
        self.word(text);
        self.number(n);
    }

    // A line: a word and two numbers.
    pub fn pair(&mut self, text: &[u8], first: u64, second: u64)
        ensures { AddsPair self.old self.new text.now first second }
    {
        self.field(text, first);
        self.number(second);
        self.end_line();
    }

    // The end of a line. What is held is written where the buffer is full.
    pub fn end_line(&mut self)
        ensures { self.new ≡ line_end (kept (self.old ++ 10 ∷ [])) }
    {
        self.word(b"\n");
        if FULL <= self.used {
            self.write();
        }
    }

    // Writes what is held, and holds nothing then.
    pub fn write(&mut self)
        ensures { self.new ≡ [] }
    {
        print::word(&self.bytes[..self.used]);
        self.used = 0;
    }
}
