// The jobs.
use crate::repeats::last_of;
use crate::{collections, sessions};
use codec::{Decoded, LONGEST_BOOK};
use mesh::{Mesh, Reason};
use planner::Planned;
use streams::print::{answer, digits, end, field, number, word};

pub(crate) fn run(job: u8, repeats: u32, book: &mut [u8]) {
    let read = codec::decode(book);
    match read.answer {
        Ok(()) => run_on(job, repeats, book, read.mesh),
        Err(Reason { number: n, place }) => {
            field(b"refused", u64::from(n));
            number(place as u64);
        }
    }
    end();
}

// A job on a book that is accepted, and its mesh; the refusal where the job is refused.
// form: a match, since a byte of the input names the job; a table of functions by byte would be searched and say no more.
fn run_on(job: u8, repeats: u32, book: &mut [u8], m: Mesh) {
    let done = match job {
        b'D' => decode_job(book, repeats),
        b'E' => encode_job(m, repeats),
        b'P' => plan_job(m, repeats),
        b'R' => sessions::run_job(m, repeats),
        b'S' => sessions::run_of_first_job(m, repeats),
        b'C' => sessions::cut_job(m, repeats),
        b'L' => sessions::deliver_job(m, repeats),
        b'U' => sessions::status_job(m, repeats),
        b'V' => sessions::rest_job(m, repeats),
        b'B' => collections::collect_job(m, repeats),
        _ => Ok(()),
    };
    if done.is_err() {
        answer(done);
    }
}

// A value that was answered with an acceptance, or why it is refused.
pub(crate) fn accepted<T: Drop>(value: T, a: Result<(), Reason>) -> Result<T, Reason> {
    a?;
    Ok(value)
}

// The mesh with another length of link 0.
pub(crate) fn with_length(mut m: Mesh, repeat: u32) -> Mesh {
    m.links[0].length = length_in(m.count, repeat);
    m
}

// The length of link 0 in a repeat; 0 where there is no link.
fn length_in(count: u16, repeat: u32) -> u16 {
    if count == 0 {
        return 0;
    }
    (repeat % 65535) as u16 + 1
}

// Where link 0's length stands in a book, where it has one.
fn length_place(book: &[u8]) -> Option<usize> {
    let b = *book.get(4)?;
    if b / 4 % 2 == 0 {
        return None;
    }
    Some(5 + usize::from(b % 2) + usize::from(b / 2 % 2))
}

// Stores the low byte of link 0's length in a repeat.
fn put_length(book: &mut [u8], place: Option<usize>, repeat: u32) {
    if let Some(byte) = place.and_then(|at| book.get_mut(at)) {
        *byte = (repeat % 255) as u8 + 1;
    }
}

// Decodes the book with another low byte of link 0's length in each repeat.
fn decode_often(book: &mut [u8], repeats: u32) -> Decoded {
    let place = length_place(book);
    last_of!(repeats, i => put_length(book, place, i); codec::decode(book))
}

fn decode_job(book: &mut [u8], repeats: u32) -> Result<(), Reason> {
    let read = decode_often(book, repeats);
    word(b"D");
    answer(mesh::check(read.mesh));
    Ok(())
}

fn encode_often(mut m: Mesh, out: &mut [u8], repeats: u32) -> usize {
    let mut length = 0;
    for i in 0..repeats {
        m.links[0].length = length_in(m.count, i);
        length = codec::encode(m, out).length;
    }
    length
}

fn encode_job(m: Mesh, repeats: u32) -> Result<(), Reason> {
    let mut out = [0u8; LONGEST_BOOK];
    let length = encode_often(m, &mut out, repeats);
    word(b"E");
    number(read_back(&out, length) as u64);
    Ok(())
}

// The length of the book that was written, 0 if it cannot be read. Makes use of the output, so that no compiler can take the writing out.
fn read_back(out: &[u8], length: usize) -> usize {
    let Some(book) = out.get(..length) else {
        return 0;
    };
    if codec::decode(book).answer.is_ok() {
        length
    } else {
        0
    }
}

fn plan_often(mut m: Mesh, repeats: u32) -> Planned {
    last_of!(repeats, i => m.links[0].length = length_in(m.count, i); planner::plan(m))
}

fn plan_job(m: Mesh, repeats: u32) -> Result<(), Reason> {
    let planned = plan_often(m, repeats);
    word(b"P");
    answer(planned.answer);
    word(b" ");
    for d in planned.plan.directions.iter().take(usize::from(m.count)) {
        digits(u64::from(*d));
    }
    Ok(())
}
