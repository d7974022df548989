// The calls that are read and not made yet.
ghost use Rattle.std.specs.Prelude.{◌≡◌, ◌+◌, ◌<◌, ◌↔◌, IsTrue};

use crate::MOST_CALLS;
use std::marker::Model;
use streams::input::{next_byte, next_four, next_two};

// For each call its letter, the letter of its form in place, and its number. A clause sees how many are held.
// form: an array for each, since lists::make_calls takes the letters and the numbers of a list as two slices; no `Copy`, which the check lacks for an
// `impl Model` whose value does not give the fields back.
#[derive(Clone, Drop)]
pub(crate) struct Held {
    letters: [u8; MOST_CALLS],
    lent: [u8; MOST_CALLS],
    numbers: [u32; MOST_CALLS],
    count: usize,
}

impl Model for Held {
    ghost use Rattle.std.specs.Prelude.{ℕ, ◌≤◌};
    ghost use Rattle.script.specs.declared.TheConstants.{MOST_CALLS};

    ghost Value = { ℕ };

    ghost view = { λ h. h.count };

    ghost invariant = { λ h. h.count ≤ MOST_CALLS };
}

impl Held {
    pub(crate) fn new() -> Held
        ensures { result ≡ 0 }
    {
        Held {
            letters: [0; MOST_CALLS],
            lent: [0; MOST_CALLS],
            numbers: [0; MOST_CALLS],
            count: 0,
        }
    }

    pub(crate) fn is_full(&self) -> bool
        ensures { IsTrue result ↔ (self.now ≡ MOST_CALLS) }
    {
        self.count == MOST_CALLS
    }

    // Holds the call of this letter, whose number comes next.
    pub(crate) fn hold(&mut self, letter: u8)
        requires { self.old < MOST_CALLS }
        ensures { self.new ≡ self.old + 1 }
    {
        self.letters[self.count] = letter;
        self.lent[self.count] = lent_letter(letter);
        self.numbers[self.count] = next_number(letter);
        self.count += 1;
    }

    pub(crate) fn clear(&mut self)
        ensures { self.new ≡ 0 }
    {
        self.count = 0;
    }

    pub(crate) fn letters(&self) -> &[u8] {
        &self.letters[..self.count]
    }

    pub(crate) fn lent(&self) -> &[u8] {
        &self.lent[..self.count]
    }

    pub(crate) fn numbers(&self) -> &[u32] {
        &self.numbers[..self.count]
    }
}

// The letter of the same call on a session that is lent.
// form: a match on bytes, since make_calls takes the letters of a list as bytes.
fn lent_letter(letter: u8) -> u8 {
    match letter {
        b'C' => b'c',
        b'D' => b'd',
        b'M' => b'm',
        _ => letter,
    }
}

// The number of a call: its link, its link × 256 + its wavelength, or its allowance.
// form: a match on a byte, since the letter is held as it was read, and make_calls takes it so.
fn next_number(letter: u8) -> u32 {
    match letter {
        b'C' | b'M' => u32::from(next_two()),
        b'R' => next_four(),
        _ => next_named(),
    }
}

// A wavelength, then a link, as one number.
fn next_named() -> u32 {
    let wavelength = next_byte();
    let link = next_two();
    u32::from(wavelength) + 256 * u32::from(link)
}
