// Proved clients of the library: functions that make its calls and whose contracts are the theorem page's own words. A call whose contract said less
// than its definition would break the proof of its client here.
#![tactic(auto)]

pub mod book;
pub mod duct;
pub mod route;
pub mod session;

use codec::{Decoded, Encoded};
use flooding::running::Outcome;
use mesh::{Plan, Reason};
use recovery::{Routed, Session};
use status::LinkStatus;

// What planning and starting on a mesh give.
#[derive(Clone, Copy)]
pub struct Begun {
    pub session: Session,
    pub plan: Plan,
    pub planning: Result<(), Reason>,
    pub starting: Result<(), Reason>,
}

// What a cut leads to on wavelength 1: how many deliveries of an unhindered run were made on it, what the run reports of both wavelengths, and what a status
// of the cut link and the route query answer after it.
#[derive(Clone, Copy)]
pub struct Recovered {
    pub deliveries: u16,
    pub report: Result<Outcome, Reason>,
    pub status: Result<LinkStatus, Reason>,
    pub routed: Routed,
}

// What reading a book and writing its mesh give.
#[derive(Clone, Copy)]
pub struct Rewritten {
    pub reading: Result<(), Reason>,
    pub writing: Encoded,
}

// What checking a mesh, writing it and reading what was written give.
#[derive(Clone, Copy)]
pub struct Reread {
    pub checking: Result<(), Reason>,
    pub writing: Encoded,
    pub reading: Decoded,
}

// One byte of a record, and the answer to showing the record.
// form: no Result, since the clause of `record_byte` says that the byte is 0 beside a refusal.
#[derive(Clone, Copy)]
pub struct RecordByte {
    pub byte: u8,
    pub answer: Result<(), Reason>,
}
