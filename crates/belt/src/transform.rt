// The transformation of a key to a new key, by its level and a header.
ghost use Rattle.std.specs.Prelude.{◌≡◌, length};
ghost use Rattle.blocks.specs.Written.{written};
ghost use Rattle.belt.specs.Transformation.{word_for, transformed, transform_answer};

use crate::hash::compress;
use crate::keys::{expand, joined};
use blocks::Refusal;

// The word for the two lengths, where the transformation has one.
fn word(old_length: usize, new_length: usize) -> Option<[u8; 4]>
    ensures { result ≡ word_for old_length new_length }
{
    match (old_length, new_length) {
        (16, 16) => Some([0xB1, 0x94, 0xBA, 0xC8]),
        (24, 16) => Some([0x5B, 0xE3, 0xD6, 0x12]),
        (24, 24) => Some([0x5C, 0xB0, 0xC0, 0xFF]),
        (32, 16) => Some([0xE1, 0x2B, 0xDC, 0x1A]),
        (32, 24) => Some([0xC1, 0xAB, 0x76, 0x38]),
        (32, 32) => Some([0xF3, 0x3C, 0x65, 0x7B]),
        _ => None,
    }
}

// Writes the new key, of 16, 24 or 32 octets and not longer than the key, to the front of the output.
pub fn transform(
    key: &[u8],
    level: [u8; 12],
    header: [u8; 16],
    new_length: usize,
    out: &mut [u8],
) -> Result<usize, Refusal>
    ensures answer { result ≡ transform_answer (length key.now) new_length (length out.old) }
    ensures text { out.new ≡ written result (transformed key.now level header new_length) out.old }
{
    let full = expand(key)?;
    let word = word(key.len(), new_length).ok_or(Refusal::KeyLength)?;
    if out.len() < new_length {
        return Err(Refusal::ShortOutput);
    }
    let head: [u8; 16] = joined(&word, &level);
    let fresh = compress(joined(&head, &header), full).state;
    out[0..new_length].copy_from_slice(&fresh[0..new_length]);
    Ok(new_length)
}
