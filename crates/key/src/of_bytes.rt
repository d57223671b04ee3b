// A key from the bytes that a caller has. Its contract names the blocks of a record, and so stands in a file of its own.
#![tactic(auto)]

ghost use Rattle.std.specs.Prelude.{◌≡◌, length};
ghost use Rattle.paper.specs.Figure6.{key_of};
ghost use Rattle.key.specs.Meaning.{blocks, Kept};

use super::{Key, record_of};

// The key of 48 bytes, I first.
pub fn key_of(s: &[u8]) -> Key
    requires { length s.now ≡ 48 }
    ensures { (blocks result ≡ key_of s.now) × Kept result }
{
    record_of(slices::load(s, 0), slices::load(s, 16), slices::load(s, 32))
}
