// The two wavelengths, and a flood on each of them. The deliveries on both, and what they guarantee, are theory (specs/Merge.antt, specs/Guarantees.antt).
#![tactic(auto)]

ghost use Rattle.std.specs.Prelude.{◌≡◌};
ghost use Rattle.wavelengths.specs.Wavelength.{each, is_wavelength, wavelength_of};

use flood::Flood;

// Wavelength 1, and wavelength 2.
#[derive(Clone, Copy)]
pub enum Wavelength {
    First,
    Second,
}

// The flood on wavelength 1, and that on wavelength 2.
#[derive(Clone, Copy)]
pub struct Floods {
    pub first: Flood,
    pub second: Flood,
}

// What a wavelength has, of what each of the two has.
pub fn of_wavelength<T: Copy>(wavelength: Wavelength, first: T, second: T) -> T
    ensures { result ≡ each first second wavelength }
{
    match wavelength {
        Wavelength::First => first,
        Wavelength::Second => second,
    }
}

// Whether a number names a wavelength: 1 or 2.
// form: no TryFrom, since a call tests the number between two other refusals, 12 and 23, and reads it only where it is accepted.
pub fn is_wavelength(n: u8) -> bool
    ensures { result ≡ is_wavelength n }
{
    match n {
        1 | 2 => true,
        0 | 3..=255 => false,
    }
}

// The wavelength that a number names; any other number than 2 is taken as 1.
pub fn wavelength_of(n: u8) -> Wavelength
    ensures { result ≡ wavelength_of n }
{
    match n {
        2 => Wavelength::Second,
        0 | 1 | 3..=255 => Wavelength::First,
    }
}
