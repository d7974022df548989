// Cut, delivery and mend on a session that the host lends: each makes the call by value and stores the session that it returns.
#![tactic(auto)]

ghost use Rattle.std.specs.Prelude.{◌≡◌};
ghost use Rattle.recovery.specs.Calls.{after_cut, after_delivery, after_mend};

use mesh::Reason;
use recovery::{Delivered, Session};

// Link k is cut.
pub fn cut(s: &mut Session, link: u16) -> Result<(), Reason>
    ensures { (s.new ≡ (after_cut s.old link).session) × (result ≡ (after_cut s.old link).answer) }
{
    let changed = Session::cut(*s, link);
    *s = changed.session;
    changed.answer
}

// A delivery on a link and a wavelength.
pub fn deliver(s: &mut Session, link: u16, wavelength: u8) -> Delivered
    ensures { (s.new ≡ (after_delivery s.old link wavelength).session)
        × (result ≡ (after_delivery s.old link wavelength).answer) }
{
    let delivery = Session::deliver(*s, link, wavelength);
    *s = delivery.session;
    delivery.answer
}

// The cut link is mended.
pub fn mend(s: &mut Session, link: u16) -> Result<(), Reason>
    ensures { (s.new ≡ (after_mend s.old link).session) × (result ≡ (after_mend s.old link).answer) }
{
    let mended = Session::mend(*s, link);
    *s = mended.session;
    mended.answer
}
