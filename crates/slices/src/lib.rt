// Bytes in a slice: a block loaded and stored, strings copied, cleared and compared.
#![tactic(auto)]

ghost use Rattle.std.specs.Prelude.{◌++◌, ◌≡◌, ◌+◌, ◌≤◌, length, take, drop, replicate};
ghost use Rattle.paper.specs.Strings.{same};

// The block at a place of s.
pub fn load(s: &[u8], at: usize) -> [u8; 16]
    requires { at + 16 ≤ length s.now }
    ensures { result ≡ take 16 (drop at s.now) }
{
    s[at..at + 16].try_into().unwrap()
}

// The block b put at a place of s, and every other byte of s kept.
pub fn store(s: &mut [u8], at: usize, b: [u8; 16])
    requires { at + 16 ≤ length s.old }
    ensures { s.new ≡ take at s.old ++ b ++ drop (at + 16) s.old }
{
    s[at..at + 16].copy_from_slice(&b);
}

// The bytes t put at a place of s, and every other byte of s kept. By a loop: `copy_from_slice` from a slice that is lent is a call of memmove,
// and then whoever links the library must have that too.
pub fn copy(s: &mut [u8], at: usize, t: &[u8])
    requires { at + length t.now ≤ length s.old }
    ensures { s.new ≡ take at s.old ++ t.now ++ drop (at + length t.now) s.old }
{
    for i in 0..t.len() {
        s[at + i] = t[i];
    }
}

// Zero for every byte of s.
pub fn clear(s: &mut [u8])
    ensures { s.new ≡ replicate (length s.old) 0 }
{
    s.fill(0);
}

// Whether two strings of one length are equal. Every byte is looked at, whatever is found: what differs is gathered, and asked about once.
pub fn same_bytes(a: &[u8], b: &[u8]) -> bool
    requires { length a.now ≡ length b.now }
    ensures { result ≡ same a.now b.now }
{
    a.iter().zip(b).fold(0, |found, (x, y)| found | (x ^ y)) == 0
}
