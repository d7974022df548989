// Reading numbers of up to four bytes, low byte first.
ghost use Rattle.std.specs.Prelude.{◌≡◌, ◌+◌, ◌≤◌, ◌<◌, ◌^◌, length};
ghost use Rattle.scan.specs.Bytes.{number};

// The number in the w bytes of s from `at` on.
pub(crate) fn number_at(s: &[u8], at: usize, w: usize) -> u32
    requires w_bound { w ≤ 4 }
    requires w_in_bounds { at + w ≤ length s.now }
    ensures value { result ≡ number w s.now at }
    ensures within { result < 256 ^ w }
{
    let mut x: u32 = 0;
    for i in (0..w).rev() {
        x = s[at + i] as u32 + 256 * x;
    }
    x
}
