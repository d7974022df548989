// Repeats one job on one book, for measuring: a job byte (D decode, E encode, P plan, R run to rest, S run to rest of wavelength 1 alone,
// C one cut, L one delivery, U one status, V one status at rest, B one collection route), a number of repeats (4 bytes, low byte first), a book.
// The length of link 0 is another in each repeat, or for a collection route the root. Prints one line from the last result.
#![tactic(auto)]

mod collections;
mod floods;
mod job;
mod repeats;
mod sessions;

use codec::LONGEST_BOOK;
use streams::input::STDIN_FILENO;

fn main() {
    let mut head = [0u8; 5];
    if io::read_full(STDIN_FILENO, &mut head) < 5 {
        return;
    }
    let [job, a, b, c, d] = head;
    let mut space = [0u8; LONGEST_BOOK + 1];
    let length = io::read_full(STDIN_FILENO, &mut space);
    job::run(job, u32::from_le_bytes([a, b, c, d]), &mut space[..length]);
}
