// Storing numbers in an output, low byte first.
ghost use Rattle.std.specs.Prelude.{◌≡◌, ◌+◌, ◌≤◌, length};
ghost use Rattle.std.proofs.lemmas.List.Edits.{sets};
ghost use Rattle.scan.specs.Bytes.{bytes};

// An output, and where its next byte goes.
#[derive(Drop)]
pub(crate) struct Pen<'a> {
    pub out: &'a mut [u8],
    pub at: usize,
}

impl Pen<'_> {
    // Stores the w low bytes of v.
    pub(crate) fn put_bytes(&mut self, w: usize, v: u32)
        requires { self.old.at + w ≤ length self.old.out.now }
        ensures output { self.new.out.ghost_name ≡ self.old.out.ghost_name }
        ensures next { self.new.at ≡ self.old.at + w }
        ensures stored { self.new.out.now ≡ sets self.old.out.now self.old.at (bytes w v) }
    {
        let mut x = v;
        for i in 0..w {
            self.out[self.at + i] = (x % 256) as u8;
            x /= 256;
        }
        self.at += w;
    }
}
