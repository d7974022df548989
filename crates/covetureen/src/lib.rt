// The library for C and Rust: functions on numbers and lent arrays, which need no session. include/covetureen.h declares them.
#![tactic(auto)]

mod answer;
mod book;
mod cut;
mod entries;
mod questions;

pub use book::{covetureen_check, covetureen_link, covetureen_mesh, covetureen_plan};
pub use cut::covetureen_route;
pub use questions::{covetureen_collect, covetureen_ducts, covetureen_survey};
