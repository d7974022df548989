// Numbers and bytes from standard input, words and numbers to standard output, at once or held in a buffer, for programs.
#![tactic(auto)]

pub mod held;
pub mod input;
pub mod print;
