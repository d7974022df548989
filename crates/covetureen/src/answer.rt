// Answers as numbers.
ghost use Rattle.std.specs.Prelude.{◌≡◌};
ghost use Rattle.mesh.specs.Mesh.{and_then};
ghost use Rattle.covetureen.specs.Interface.{number_of, place_of, link_answer};

use mesh::Reason;

// The number of an answer, 0 where it accepts. Its place is stored, 0 where it accepts.
pub fn tell(answer: Result<(), Reason>, place: &mut usize) -> u8
    ensures number { result ≡ number_of answer }
    ensures place { place.new ≡ place_of answer }
{
    match answer {
        Ok(()) => {
            *place = 0;
            0
        }
        Err(Reason { number, place: at }) => {
            *place = at;
            number
        }
    }
}

// The first answer if it is a refusal, else the second.
pub fn and_then(first: Result<(), Reason>, second: Result<(), Reason>) -> Result<(), Reason>
    ensures { result ≡ and_then first second }
{
    first?;
    second
}

// Whether there is such a link among so many: 12.
pub fn link_answer(count: u16, link: u16) -> Result<(), Reason>
    ensures { result ≡ link_answer count link }
{
    if link < count {
        return Ok(());
    }
    Err(Reason {
        number: 12,
        place: link as usize,
    })
}
