// The refusals of each call in the order of 01 and 02, on what they look at. `tested` is the answer to the record: its refusal comes first.
#![tactic(auto)]

ghost use Rattle.std.specs.Prelude.{◌≡◌};
ghost use Rattle.scan.specs.Entry.{at};
ghost use Rattle.flood.specs.Machine.{under_way};
ghost use Rattle.mesh.specs.Answer.{Refused};
ghost use Rattle.refusals.specs.Refusals.{is_cut, standing, resting, link_answer, cut_answer, deliver_answer, run_answer, route_answer, mend_answer, status_answer};

use mesh::Reason;
use wavelengths::is_wavelength;

fn refused(number: u8, place: u16) -> Result<(), Reason>
    ensures { result ≡ Refused number place }
{
    Err(Reason {
        number,
        place: place as usize,
    })
}

// Whether a cut stands.
pub fn is_standing(cut: Option<u16>) -> bool
    ensures { result ≡ standing cut }
{
    cut.is_some()
}

// Whether link k is the cut one.
pub fn is_cut(cut: Option<u16>, k: u16) -> bool
    ensures { result ≡ is_cut cut k }
{
    cut == Some(k)
}

// Whether none of the first `count` links is under way.
pub fn is_resting(count: u16, states: &[u8; 256]) -> bool
    ensures { result ≡ resting count states.now }
{
    states::count::under_way(states, count as usize) == 0
}

// Whether link k is under way; one past the states is not.
fn is_busy(states: &[u8], k: u16) -> bool
    ensures { result ≡ under_way (at states.now k) }
{
    let i = k as usize;
    if i < states.len() {
        states::is_under_way(states[i])
    } else {
        false
    }
}

// Every call that names a link: 12.
fn link_answer(tested: Result<(), Reason>, count: u16, link: u16) -> Result<(), Reason>
    ensures { result ≡ link_answer tested count link }
{
    tested?;
    if count <= link {
        return refused(12, link);
    }
    Ok(())
}

// Status: 12, 14.
pub fn status_answer(
    tested: Result<(), Reason>,
    count: u16,
    link: u16,
    wavelength: u8,
) -> Result<(), Reason>
    ensures { result ≡ status_answer tested count link wavelength }
{
    link_answer(tested, count, link)?;
    if is_wavelength(wavelength) {
        return Ok(());
    }
    refused(14, 0)
}

// Cut: 12, 22.
pub fn cut_answer(
    tested: Result<(), Reason>,
    count: u16,
    cut: Option<u16>,
    link: u16,
) -> Result<(), Reason>
    ensures { result ≡ cut_answer tested count cut link }
{
    link_answer(tested, count, link)?;
    if is_standing(cut) {
        return refused(22, link);
    }
    Ok(())
}

// Delivery, on a wavelength with these states: 12, 14, 23, 24.
pub fn deliver_answer(
    tested: Result<(), Reason>,
    count: u16,
    cut: Option<u16>,
    states: &[u8],
    link: u16,
    wavelength: u8,
) -> Result<(), Reason>
    ensures { result ≡ deliver_answer tested count cut states.now link wavelength }
{
    status_answer(tested, count, link, wavelength)?;
    if !is_standing(cut) {
        return refused(23, link);
    }
    if is_busy(states, link) {
        return Ok(());
    }
    refused(24, link)
}

// Run: 23, with the place 0.
pub fn run_answer(tested: Result<(), Reason>, cut: Option<u16>) -> Result<(), Reason>
    ensures { result ≡ run_answer tested cut }
{
    tested?;
    if is_standing(cut) {
        return Ok(());
    }
    refused(23, 0)
}

// The route query: 14, 23, with the place 0.
pub fn route_answer(
    tested: Result<(), Reason>,
    cut: Option<u16>,
    wavelength: u8,
) -> Result<(), Reason>
    ensures { result ≡ route_answer tested cut wavelength }
{
    tested?;
    if !is_wavelength(wavelength) {
        return refused(14, 0);
    }
    if is_standing(cut) {
        return Ok(());
    }
    refused(23, 0)
}

// Mend: 12, 23, 26, 25.
pub fn mend_answer(
    tested: Result<(), Reason>,
    count: u16,
    cut: Option<u16>,
    rest: bool,
    link: u16,
) -> Result<(), Reason>
    ensures { result ≡ mend_answer tested count cut rest link }
{
    link_answer(tested, count, link)?;
    if !is_standing(cut) {
        return refused(23, link);
    }
    if !is_cut(cut, link) {
        return refused(26, link);
    }
    if rest {
        return Ok(());
    }
    refused(25, link)
}
