// Reads the corpus from standard input and prints what the library answers to each case (docs/CORPUS.md).
#![tactic(auto)]

mod arrays;
mod book;
mod calls;
mod case;
mod collecting;
mod drills;
mod old_session;
mod planning;
mod record;
mod sharing;
mod surveying;

// The most cases that are read, so that the loop ends whatever the input holds.
const MOST_CASES: u64 = 1000000;

fn main() {
    for number in 0..MOST_CASES {
        if !case::run_case(number) {
            return;
        }
    }
}
