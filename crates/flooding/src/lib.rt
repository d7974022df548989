// The floods on arrays that are lent: a run on both wavelengths, and the route of one.
#![tactic(auto)]

pub mod running;
pub mod walk;
