// The checksum of a message.
ghost use Rattle.std.specs.Prelude.{◌≡◌, ◌+◌, ◌-◌, ◌%◌, ◌<◌, ◌≤◌, length, take};
ghost use Rattle.modes.specs.Checksum.{whole_mark, short_mark, padded, closed, checksum, checksum_answer};

use crate::parts::{filled, mix, whole_pieces};
use blocks::octets::{LONGEST, xor};
use blocks::{Block, Refusal};

// The eight octets that tell whether a message of at most 65,536 octets was changed.
pub fn checksum<B: Block>(block: &mut B, message: &[u8]) -> Result<[u8; 8], Refusal>
    ensures answer { result ≡ checksum_answer (B.meaning block.old).image message.now }
    ensures same { B.meaning block.new ≡ B.meaning block.old }
{
    if message.len() > LONGEST {
        return Err(Refusal::LongMessage);
    }
    let last = absorb(block, message);
    Ok(*last.first_chunk().unwrap())
}

// The last image of the state, after all pieces.
fn absorb<B: Block>(block: &mut B, message: &[u8]) -> [u8; 16]
    ensures answer { take 8 result ≡ checksum (B.meaning block.old).image message.now }
    ensures same { B.meaning block.new ≡ B.meaning block.old }
{
    let (front, last) = message.split_at(before_last(message.len()));
    let mut s = [0; 16];
    let r = block.forward(s);
    for p in whole_pieces(front) {
        s = block.forward(xor(s, *p));
    }
    block.forward(close(r, s, last))
}

// How many octets of a message of n stand before its last piece.
fn before_last(n: usize) -> usize
    ensures pieces { result % 16 ≡ 0 }
    ensures last { (result ≤ n - 1) × (n ≤ result + 16) }
{
    n.saturating_sub(1) / 16 * 16
}

// The state with the last piece and its mark.
fn close(r: [u8; 16], s: [u8; 16], last: &[u8]) -> [u8; 16]
    requires { length last.now ≤ 16 }
    ensures { result ≡ closed r s last.now }
{
    match last.as_array() {
        Some(p) => xor(xor(s, *p), whole_mark(r)),
        None => xor(xor(s, pad(last)), short_mark(r)),
    }
}

// A short piece filled up to a block.
fn pad(q: &[u8]) -> [u8; 16]
    requires { length q.now < 16 }
    ensures { result ≡ padded q.now }
{
    let mut p = filled(q, [0; 16]);
    p[q.len()] = 128;
    p
}

// The words go one place to the front in one mark, and to the back in the other; one function of both would leave their names to the reader.
// They are copied: the library's `rotate_left` and `rotate_right` turn an array through a room of 4,096 octets on the stack.
fn whole_mark(r: [u8; 16]) -> [u8; 16]
    ensures { result ≡ whole_mark r }
{
    let mut m = r;
    m[..12].copy_from_slice(&r[4..]);
    mix(&r[..4], m, &mut m[12..]);
    m
}

fn short_mark(r: [u8; 16]) -> [u8; 16]
    ensures { result ≡ short_mark r }
{
    let mut m = r;
    m[..4].copy_from_slice(&r[12..]);
    m[4..].copy_from_slice(&r[..12]);
    mix(&r[..4], m, &mut m[..4]);
    m
}
