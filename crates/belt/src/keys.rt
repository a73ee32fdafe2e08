// The expansion of a key to 32 octets.
ghost use Rattle.std.specs.Prelude.{◌≡◌, ◌+◌, ◌≤◌, ◌++◌, length};
ghost use Rattle.belt.specs.Keys.{mixed, expand_answer};

use blocks::Refusal;
use std::array;

// The key of 32 octets that a key of 16, 24 or 32 octets stands for.
pub fn expand(key: &[u8]) -> Result<[u8; 32], Refusal>
    ensures { result ≡ expand_answer key.now }
{
    match key.len() {
        16 => Ok(joined(key, key)),
        24 => Ok(joined(key, &mixes(key))),
        32 => Ok(joined(key, &[])),
        _ => Err(Refusal::KeyLength),
    }
}

// Octets and then others, N together.
pub(crate) fn joined<const N: usize>(front: &[u8], rest: &[u8]) -> [u8; N]
    requires { length front.now + length rest.now ≡ N }
    ensures { result ≡ front.now ++ rest.now }
{
    let mut all = [0; N];
    let (start, end) = all.split_at_mut(front.len());
    start.copy_from_slice(front);
    end.copy_from_slice(rest);
    all
}

// The mixes of the first and of the last three words of a key of six.
fn mixes(key: &[u8]) -> [u8; 8]
    requires { length key.now ≡ 24 }
    ensures { result ≡ mixed key.now 0 ++ mixed key.now 12 }
{
    joined(&mix(key, 0), &mix(key, 12))
}

// The exclusive or of the three words from a place on.
fn mix(key: &[u8], at: usize) -> [u8; 4]
    requires { at + 12 ≤ length key.now }
    ensures { result ≡ mixed key.now at }
{
    array::from_fn(|j| key[at + j] ^ key[at + 4 + j] ^ key[at + 8 + j])
}
