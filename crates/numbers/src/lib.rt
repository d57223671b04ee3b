// Numbers in N bytes of a slice, high byte first.
#![tactic(auto)]

ghost use Rattle.std.specs.Prelude.{◌≡◌, ◌+◌, ◌^◌, ◌<◌, ◌≤◌, length, take, drop};
ghost use Rattle.paper.specs.Strings.{digits};
ghost use Rattle.paper.specs.DayFile.{value};
ghost use Rattle.laws.specs.Placing.{placed};

// The number of the N bytes at a place: the last bytes of a machine number whose other bytes are zeros.
pub fn read<const N: usize>(s: &[u8], at: usize) -> usize
    requires short { N ≤ 8 }
    requires inside { at + N ≤ length s.now }
    ensures value { result ≡ value (take N (drop at s.now)) }
    ensures small { result < 256 ^ N }
{
    let mut bytes = [0; 8];
    bytes[8 - N..].copy_from_slice(&s[at..at + N]);
    usize::from_be_bytes(bytes)
}

// A number put at a place in N bytes, and every other byte kept.
pub fn put<const N: usize>(out: &mut [u8], at: usize, n: usize)
    requires short { N ≤ 8 }
    requires inside { at + N ≤ length out.old }
    ensures { out.new ≡ placed at (digits 256 N n) out.old }
{
    out[at..at + N].copy_from_slice(&n.to_be_bytes()[8 - N..]);
}
