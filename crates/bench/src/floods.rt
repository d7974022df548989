// The floods of a session just after a cut.
use recovery::Session;
use states::is_under_way;

pub(crate) const FIRST: u8 = 1;

const SECOND: u8 = 2;

// At least as many deliveries as bring one wavelength to rest.
const ENOUGH: u16 = 512;

// The lowest link under way, where there is one.
pub(crate) fn lowest_under_way(states: &[u8; 256]) -> Option<u16> {
    let place = states.iter().position(|state| is_under_way(*state))?;
    Some(place as u16)
}

// The session with wavelength 2 at rest, by deliveries on it alone, each on its lowest link under way.
pub(crate) fn second_at_rest(s: Session) -> Session {
    let mut session = s;
    for _ in 0..ENOUGH {
        let Some(link) = lowest_under_way(&session.second.states) else {
            return session;
        };
        session = session.deliver(link, SECOND).session;
    }
    session
}
