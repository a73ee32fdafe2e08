// The hash of a message, by the BelT block alone.
ghost use Rattle.std.specs.Prelude.{◌≡◌, ◌≤◌, ◌++◌, length};
ghost use Rattle.belt.specs.Compression.{sixteen_at, fed, σ₁, σ₂};
ghost use Rattle.blocks.specs.Octets.{longest};
ghost use Rattle.belt.specs.Hash.{padded, start, absorbed, finished, hash_answer};

use crate::BeltBlock;
use crate::keys::joined;
use blocks::octets::{LONGEST, Number, xor};
use blocks::{Block, Refusal};

// The first 32 entries of the substitution table.
const START: [u8; 32] =
    *b"\xB1\x94\xBA\xC8\x0A\x08\xF5\x3B\x36\x6D\x00\x8E\x58\x4A\x5D\xE4\x85\x04\xFA\x9D\x1B\xB6\xC7\xAC\x25\x2E\x72\xC2\x02\xFD\xCE\x0D";

// What the compression of 64 octets gives, and what the hash keeps from block to block.
#[derive(Clone, Copy)]
pub(crate) struct Running {
    pub(crate) mix: [u8; 16],
    pub(crate) state: [u8; 32],
}

// The image of p under a key of 32 octets, mixed with p again.
#[tactic(auto, unfolding(crate::specs::Compression::fed))]
fn fed_forward(key: [u8; 32], p: [u8; 16]) -> [u8; 16]
    ensures { result ≡ fed key p }
{
    let mut block = BeltBlock::with_expanded(key);
    xor(block.forward(p), p)
}

// The two sixteens of 32 octets.
fn halves(x: [u8; 32]) -> ([u8; 16], [u8; 16])
    ensures first { result.0 ≡ sixteen_at 0 x }
    ensures second { result.1 ≡ sixteen_at 16 x }
{
    let (sixteens, _) = x.as_chunks::<16>();
    (sixteens[0], sixteens[1])
}

// The compression of 64 octets, given as 32 and 32.
pub(crate) fn compress(x: [u8; 32], h: [u8; 32]) -> Running
    ensures mix { result.mix ≡ σ₁ (x ++ h) }
    ensures state { result.state ≡ σ₂ (x ++ h) }
{
    let (u1, u2) = halves(x);
    let (u3, u4) = halves(h);
    let mix = fed_forward(x, xor(u3, u4));
    let first = fed_forward(joined(&mix, &u4), u1);
    let second = fed_forward(joined(&xor(mix, [0xFF; 16]), &u3), u2);
    let state = joined(&first, &second);
    Running { mix, state }
}

// A block of 32 octets: a piece of the message, filled with zeros. (The modes fill up one of 16; one for both would be public, and so could
// require nothing.)
fn filled(piece: &[u8]) -> [u8; 32]
    requires { length piece.now ≤ 32 }
    ensures { result ≡ padded piece.now }
{
    let mut block = [0; 32];
    block[..piece.len()].copy_from_slice(piece);
    block
}

impl Running {
    // Before the first block.
    fn start() -> Running
        ensures { result ≡ start }
    {
        Running {
            mix: [0; 16],
            state: START,
        }
    }

    // One block more.
    fn absorb(self, block: [u8; 32]) -> Running
        ensures { result ≡ absorbed self block }
    {
        let Running { mix, state } = compress(block, self.state);
        let mix = xor(self.mix, mix);
        Running { mix, state }
    }

    // The hash, after the last block of a message of so many octets.
    fn finish(self, octets: usize) -> [u8; 32]
        requires { octets ≤ longest }
        ensures { result ≡ finished self octets }
    {
        let bits = ((8 * octets) as u128).field();
        compress(joined(&bits, &self.mix), self.state).state
    }
}

// The hash of a message of at most 65,536 octets.
pub fn hash(message: &[u8]) -> Result<[u8; 32], Refusal>
    ensures { result ≡ hash_answer message.now }
{
    let octets = message.len();
    if octets > LONGEST {
        return Err(Refusal::LongMessage);
    }
    let mut running = Running::start();
    for piece in message.chunks(32) {
        running = running.absorb(filled(piece));
    }
    Ok(running.finish(octets))
}
