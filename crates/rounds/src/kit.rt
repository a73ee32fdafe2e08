// The kit: the keys of a site's tag, seal and check blocks, from its wrapped site key.
ghost use Rattle.std.specs.Prelude.{◌≡◌, ℕ, ◌+◌, ◌-◌, ◌*◌, true, length, take, replicate};
ghost use Rattle.blocks.specs.Written.{written};
ghost use Rattle.belt.specs.Keys.{key_length};
ghost use Rattle.modes.specs.Wrapping.{key_found};
ghost use Rattle.rounds.specs.Kits.{kit_header, kit_key, kit_keys, kit_room, kit_answer};
ghost use Rattle.rounds.specs.KitExact.{KitExact};

use belt::transform::transform;
use blocks::octets::Number;
use blocks::{Block, Refusal};
use modes::scratch::Wipe;
use modes::wrap::unwrap_within;

// The output that the kit wants: room for three keys of the longest kind.
pub const KIT: usize = 96;

// The longest key text that unwrapping finds.
const KEY_TEXT: usize = 256;

// Unwraps a site key and writes the site's tag, seal and check keys to the front of the output, each as long as the site key. The scratch
// ends as zeros, which the caller could not see of the guard.
pub fn kit<B: Block>(
    block: &mut B,
    header: [u8; 16],
    text: &[u8],
    site: u16,
    scratch: &mut [u8],
    out: &mut [u8],
) -> Result<usize, Refusal>
    ensures answer { result ≡ kit_answer (B.meaning block.old).image header text.now (length scratch.old) (length out.old) }
    ensures text { out.new ≡ written result (kit_keys (key_found (B.meaning block.old).image text.now) site) out.old }
    ensures exact { KitExact (B.meaning block.old).image header text.now site (length scratch.old) out.old out.new result }
    ensures wiped { scratch.new ≡ replicate (length scratch.old) 0 }
    ensures same { B.meaning block.new ≡ B.meaning block.old }
{
    let guard = Wipe { scratch };
    kit_in(block, header, text, site, guard.scratch, out)
}

// The work of the kit, which leaves octets of the site key in the scratch. Its parameters are the kit's: a struct of them would be made
// and taken apart once.
fn kit_in<B: Block>(
    block: &mut B,
    header: [u8; 16],
    text: &[u8],
    site: u16,
    scratch: &mut [u8],
    out: &mut [u8],
) -> Result<usize, Refusal>
    ensures answer { result ≡ kit_answer (B.meaning block.old).image header text.now (length scratch.old) (length out.old) }
    ensures text { out.new ≡ written result (kit_keys (key_found (B.meaning block.old).image text.now) site) out.old }
    ensures same { B.meaning block.new ≡ B.meaning block.old }
{
    let n = unwrap_within(block, header, text, room(out.len()), scratch)?;
    if !matches!(n, 16 | 24 | 32) {
        return Err(Refusal::KeyLength);
    }
    derive(&scratch[0..n], site, &mut out[0..3 * n]);
    Ok(3 * n)
}

// What unwrapping is told of the room: none where the output is short for the kit.
fn room(out: usize) -> usize
    ensures { result ≡ kit_room out }
{
    if out < KIT { 0 } else { KEY_TEXT }
}

// Writes the three keys, each by its place: after a write through `chunks_exact_mut` nothing would be known of them.
fn derive(key: &[u8], site: u16, out: &mut [u8])
    requires { (key_length (length key.now) ≡ true) × (length out.old ≡ 3 * length key.now) }
    ensures { out.new ≡ kit_keys key.now site }
{
    let n = key.len();
    derive_one(key, 1, site, &mut out[0..n]);
    derive_one(key, 2, site, &mut out[n..2 * n]);
    derive_one(key, 3, site, &mut out[2 * n..3 * n]);
}

// Writes the new key number i.
fn derive_one(key: &[u8], i: u8, site: u16, out: &mut [u8])
    requires { (key_length (length key.now) ≡ true) × (length out.old ≡ length key.now) }
    ensures { out.new ≡ kit_key key.now i site }
{
    transform(key, [0; 12], key_header(i, site), key.len(), out).unwrap();
}

fn key_header(i: u8, site: u16) -> [u8; 16]
    ensures { result ≡ kit_header i site }
{
    let [low, high] = site.field();
    [i, low, high, 0, 0, 0, 0, 0, 0, 0, 0, 0, 0, 0, 0, 0]
}
