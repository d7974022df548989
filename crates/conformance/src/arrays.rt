// What is shown of the entries of an array.
use streams::print::{end, line, number, word};

// A word, and the indices of the entries that are marked.
pub(crate) fn show_marked<T, F: Fn(&T) -> bool>(text: &[u8], entries: &[T], is_marked: F)
    requires { F.IsAlwaysCallable is_marked }
{
    word(text);
    for (i, entry) in entries.iter().enumerate() {
        if is_marked(entry) {
            number(i as u64);
        }
    }
    end();
}

// How many entries past the last one are not zero.
pub(crate) fn show_rest(past: &[u8]) {
    let rest = past.iter().filter(|entry| **entry != 0).count();
    line(b"rest", rest as u64);
}
