// Blocks in and out of texts.
ghost use Rattle.std.specs.Prelude.{◌≡◌, ◌+◌, ◌-◌, ◌/◌, ◌≤◌, ◌++◌, length, take, drop};
ghost use Rattle.blocks.specs.Octets.{xor_each};
ghost use Rattle.modes.specs.Pieces.{cut};

// The whole pieces that `text` begins with.
pub(crate) fn whole_pieces(text: &[u8]) -> &[[u8; 16]]
    ensures pieces { result.now ≡ cut (length text.now / 16) text.now }
    ensures count { length result.now ≡ length text.now / 16 }
{
    text.as_chunks().0
}

// The short piece q, filled up with the last octets of `base`. (The hash has one of 32 octets: one for both would be public, and so could
// require nothing.)
pub(crate) fn filled(q: &[u8], base: [u8; 16]) -> [u8; 16]
    requires { length q.now ≤ 16 }
    ensures { result ≡ q.now ++ drop (length q.now) base }
{
    let mut r = base;
    r[..q.len()].copy_from_slice(q);
    r
}

// Writes `full`, and then as much of `last` as there is room for.
pub(crate) fn store_two(out: &mut [u8], full: [u8; 16], last: [u8; 16])
    requires { (16 ≤ length out.old) × (length out.old ≤ 32) }
    ensures { out.new ≡ full ++ take (length out.old - 16) last }
{
    let (front, back) = out.split_at_mut(16);
    front.copy_from_slice(&full);
    back.copy_from_slice(&last[..back.len()]);
}

// Mixes the octets of `text`, at most sixteen, with the first ones of `key`.
pub(crate) fn mix(text: &[u8], key: [u8; 16], out: &mut [u8])
    requires { (length text.now ≤ 16) × (length out.old ≡ length text.now) }
    ensures { out.new ≡ xor_each text.now key }
{
    // Written by place: after a write through `iter_mut().zip` nothing is known of `out`.
    for (j, x) in text.iter().enumerate() {
        out[j] = x ^ key[j];
    }
}
