// Words, numbers and answers on standard output.
use mesh::Reason;

// The numbers of the descriptors that programs write to.
pub const STDOUT_FILENO: i32 = 1;

pub const STDERR_FILENO: i32 = 2;

pub fn word(text: &[u8]) {
    io::write_all(STDOUT_FILENO, text);
}

// A number with no space.
pub fn digits(n: u64) {
    io::print_decimal(STDOUT_FILENO, n);
}

// A space and a number.
pub fn number(n: u64) {
    word(b" ");
    digits(n);
}

// The end of a line.
pub fn end() {
    word(b"\n");
}

// A word and a number.
pub fn field(text: &[u8], n: u64) {
    word(text);
    number(n);
}

// A line: a word and a number.
pub fn line(text: &[u8], n: u64) {
    field(text, n);
    end();
}

// A refusal's number and place.
pub fn refused(n: u64, place: u64) {
    field(b" refused", n);
    number(place);
}

// form: a Display writes to a writer, and std has one to standard output only from a runtime, which the programs that read cases do not take.
pub fn answer(a: Result<(), Reason>) {
    match a {
        Ok(()) => word(b" accepted"),
        Err(Reason { number: n, place }) => refused(n as u64, place as u64),
    }
}

// A line: a word and an answer.
pub fn answer_line(text: &[u8], a: Result<(), Reason>) {
    word(text);
    answer(a);
    end();
}

// A line: a word and bytes, two digits each.
pub fn hex(text: &[u8], bytes: &[u8]) {
    word(text);
    if !bytes.is_empty() {
        word(b" ");
    }
    for b in bytes {
        io::print_hex(STDOUT_FILENO, *b as u64, 2);
    }
    end();
}

// A line: a word and bytes, as numbers.
pub fn numbers(text: &[u8], bytes: &[u8]) {
    word(text);
    for b in bytes {
        number(*b as u64);
    }
    end();
}
