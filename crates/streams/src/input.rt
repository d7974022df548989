// Numbers on standard input, low byte first; 0 past its end.
ghost use Rattle.std.specs.Prelude.{◌≤◌, length, IfOk, IfSome};
ghost use Rattle.io.specs.Counts.{IsPrefixLen};

use crate::print::STDERR_FILENO;
use std::io::{Read, Stdin};

// The number of the descriptor that programs read from.
pub const STDIN_FILENO: i32 = 0;

// Reads into the front of `space` until it is full or the input ends, and answers how many bytes came. A read that fails after the first counts as the input's
// end.
pub fn read_input(input: &mut Stdin, space: &mut [u8]) -> std::io::Result<usize>
    ensures { IfOk result (λ count. IsPrefixLen count space.new) }
{
    let first = input.read(space)?;
    if first == 0 {
        return Ok(0);
    }
    Ok(first + io::read_full(STDIN_FILENO, &mut space[first..]))
}

// The bytes that are read so; where the input cannot be read, what the program says of it is written to stderr, and there are none.
pub fn read_or_say<'a>(
    input: &mut Stdin,
    space: &'a mut [u8],
    unreadable: &[u8],
) -> Option<&'a [u8]>
    ensures { IfSome result (λ bytes. length bytes.now ≤ length space.old) }
{
    let Ok(count) = read_input(input, space) else {
        io::write_all(STDERR_FILENO, unreadable);
        return None;
    };
    Some(&space[..count])
}

// The next N bytes.
fn next<const N: usize>() -> [u8; N] {
    let mut bytes = [0u8; N];
    io::read_full(STDIN_FILENO, &mut bytes);
    bytes
}

pub fn next_byte() -> u8 {
    let [b] = next::<1>();
    b
}

pub fn next_two() -> u16 {
    u16::from_le_bytes(next())
}

pub fn next_four() -> u32 {
    u32::from_le_bytes(next())
}

// Reads so many bytes into the front of `space`, where they fit, and answers how many came.
pub fn next_bytes(space: &mut [u8], length: usize) -> usize
    ensures { IsPrefixLen result space.new }
{
    if space.len() < length {
        return 0;
    }
    io::read_full(STDIN_FILENO, &mut space[..length])
}

// The bytes that come after their number, where they fit.
pub fn next_counted(space: &mut [u8]) -> &[u8]
    ensures { length result.now ≤ length space.old }
{
    let length = next_two() as usize;
    let came = next_bytes(space, length);
    &space[..came]
}
