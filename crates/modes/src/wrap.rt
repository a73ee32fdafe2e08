// Wrapping and unwrapping of key texts over any block. Both step the block forward only.
ghost use Rattle.std.specs.Prelude.{◌≡◌, ℕ, ◌+◌, ◌-◌, ◌≤◌, ◌++◌, length, take, replicate, Decides};
ghost use Rattle.blocks.specs.Octets.{xor_each};
ghost use Rattle.blocks.specs.Written.{written};
ghost use Rattle.modes.specs.Wrapping.{mixed_all, wrap_step, unwrap_step, wrap_steps, unwrap_steps, rounds, wrapped, key_found};
ghost use Rattle.modes.specs.WrapAnswers.{wrap_answer, unwrap_answer, Within};
ghost use Rattle.modes.specs.WrapExact.{UnwrapsExactly, WrapExact};

use crate::parts::whole_pieces;
use crate::scratch::Wipe;
use blocks::octets::{Number, xor};
use blocks::{Block, Refusal};

// Octets of scratch that unwrapping works in: the longest wrapped text.
pub const SCRATCH: usize = 272;

// The exclusive or of every block of a text but the last, which may be short.
fn mix(text: &[u8]) -> [u8; 16]
    requires { 16 ≤ length text.now }
    ensures { result ≡ mixed_all text.now }
{
    let mut s = [0; 16];
    for p in whole_pieces(&text[..text.len() - 1]) {
        // No fold, whose closure would need a clause, as it calls `xor`; in two lines, as no proof is generated for a result over its argument.
        let next = xor(s, *p);
        s = next;
    }
    s
}

// Whether sixteen octets are the same; every octet is looked at, where `==` may stop at the first that differs.
fn agree(a: [u8; 16], b: [u8; 16]) -> bool
    ensures { Decides result (a ≡ b) }
{
    xor(a, b).iter().fold(0, |d, x| d | x) == 0
}

// Step i of the wrapping, in place. It asks for two blocks at the least, as the three below do: a type for that would be made in `wrap` and
// in `unwrap_within` and be used there once.
fn wrap_step<B: Block>(block: &mut B, text: &mut [u8], i: usize)
    requires { 32 ≤ length text.old }
    ensures text { text.new ≡ wrap_step (B.meaning block.old).image i text.old }
    ensures same { B.meaning block.new ≡ B.meaning block.old }
{
    let s = mix(text);
    let last = text.last_chunk_mut().unwrap();
    *last = xor(*last, xor(block.forward(s), (i as u128).field()));
    text.rotate_left(16);
    *text.last_chunk_mut().unwrap() = s;
}

// Step i of the unwrapping, in place.
fn unwrap_step<B: Block>(block: &mut B, text: &mut [u8], i: usize)
    requires { 32 ≤ length text.old }
    ensures text { text.new ≡ unwrap_step (B.meaning block.old).image i text.old }
    ensures same { B.meaning block.new ≡ B.meaning block.old }
{
    text.rotate_right(16);
    let s = *text.first_chunk().unwrap();
    let last = text.last_chunk_mut().unwrap();
    *last = xor(*last, xor(block.forward(s), (i as u128).field()));
    let first = mix(text);
    *text.first_chunk_mut().unwrap() = first;
}

// The number of steps on a text of n octets.
fn rounds(n: usize) -> usize
    requires { n ≤ 272 }
    ensures { result ≡ rounds n }
{
    2 * n.div_ceil(16)
}

// All the steps of the wrapping, in place.
fn wrap_steps<B: Block>(block: &mut B, text: &mut [u8])
    requires { (32 ≤ length text.old) × (length text.old ≤ 272) }
    ensures text { text.new ≡ wrap_steps (B.meaning block.old).image (rounds (length text.old)) text.old }
    ensures same { B.meaning block.new ≡ B.meaning block.old }
{
    for i in 1..=rounds(text.len()) {
        wrap_step(block, text, i);
    }
}

// All the steps of the unwrapping, in place.
fn unwrap_steps<B: Block>(block: &mut B, text: &mut [u8])
    requires { (32 ≤ length text.old) × (length text.old ≤ 272) }
    ensures text { text.new ≡ unwrap_steps (B.meaning block.old).image (rounds (length text.old)) text.old }
    ensures same { B.meaning block.new ≡ B.meaning block.old }
{
    for i in (1..=rounds(text.len())).rev() {
        unwrap_step(block, text, i);
    }
}

// Wraps a key text of 16 to 256 octets under a header to the front of the output, 16 octets longer.
pub fn wrap<B: Block>(
    block: &mut B,
    header: [u8; 16],
    key_text: &[u8],
    out: &mut [u8],
) -> Result<usize, Refusal>
    ensures answer { result ≡ wrap_answer (length key_text.now) (length out.old) }
    ensures text { out.new ≡ written result (wrapped (B.meaning block.old).image header key_text.now) out.old }
    ensures same { B.meaning block.new ≡ B.meaning block.old }
{
    let length = key_text.len();
    if !(16..=256).contains(&length) {
        return Err(Refusal::KeyTextLength);
    }
    let size = length + 16;
    if out.len() < size {
        return Err(Refusal::ShortOutput);
    }
    let text = &mut out[0..size];
    text[..length].copy_from_slice(key_text);
    text[length..].copy_from_slice(&header);
    wrap_steps(block, text);
    Ok(size)
}

// Unwraps a text of 32 to 272 octets to the front of the output, if it was wrapped under the header. The scratch ends as zeros: said here
// too, since the caller sees no guard.
pub fn unwrap<B: Block>(
    block: &mut B,
    header: [u8; 16],
    text: &[u8],
    scratch: &mut [u8],
    out: &mut [u8],
) -> Result<usize, Refusal>
    ensures answer { result ≡ unwrap_answer (B.meaning block.old).image header text.now (length scratch.old) (length out.old) }
    ensures text { out.new ≡ written result (key_found (B.meaning block.old).image text.now) out.old }
    ensures exact { UnwrapsExactly (B.meaning block.old).image header text.now (length scratch.old) out.old out.new result }
    ensures wiped { scratch.new ≡ replicate (length scratch.old) 0 }
    ensures same { B.meaning block.new ≡ B.meaning block.old }
{
    let guard = Wipe { scratch };
    unwrap_in(block, header, text, guard.scratch, out)
}

// The work of unwrapping, which leaves octets of the key text in the scratch.
// Five parameters: a struct of them would be made and taken apart once in each call, and each caller has them apart.
fn unwrap_in<B: Block>(
    block: &mut B,
    header: [u8; 16],
    text: &[u8],
    scratch: &mut [u8],
    out: &mut [u8],
) -> Result<usize, Refusal>
    ensures answer { result ≡ unwrap_answer (B.meaning block.old).image header text.now (length scratch.old) (length out.old) }
    ensures text { out.new ≡ written result (key_found (B.meaning block.old).image text.now) out.old }
    ensures same { B.meaning block.new ≡ B.meaning block.old }
{
    let n = unwrap_within(block, header, text, out.len(), scratch)?;
    out[0..n].copy_from_slice(&scratch[0..n]);
    Ok(n)
}

// Unwraps within the scratch, for a caller that goes on with the key text there and zeroes the scratch itself; `room` is what its own
// output has for a key text. Accepted, the key text stands at the front of the scratch. It answers a length and no slice of the scratch, of
// which a contract would have to say what its lender has afterwards.
pub fn unwrap_within<B: Block>(
    block: &mut B,
    header: [u8; 16],
    text: &[u8],
    room: usize,
    scratch: &mut [u8],
) -> Result<usize, Refusal>
    ensures answer { result ≡ unwrap_answer (B.meaning block.old).image header text.now (length scratch.old) room }
    ensures key { Within result (key_found (B.meaning block.old).image text.now) scratch.new room }
    ensures same { B.meaning block.new ≡ B.meaning block.old }
{
    let size = text.len();
    if !(32..=SCRATCH).contains(&size) {
        return Err(Refusal::WrappedLength);
    }
    let length = size - 16;
    if room < length || scratch.len() < SCRATCH {
        return Err(Refusal::ShortOutput);
    }
    let work = &mut scratch[0..size];
    work.copy_from_slice(text);
    unwrap_steps(block, work);
    if !agree(*work.last_chunk().unwrap(), header) {
        return Err(Refusal::HeaderDiffers);
    }
    Ok(length)
}

// The law of wrapping, over every function from sixteen octets to sixteen octets.
pub fn wrapping_stands()
    ensures { WrapExact }
{}
