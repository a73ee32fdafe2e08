// CBC: each piece mixed with the text before it, and then stepped.
ghost use Rattle.std.specs.Prelude.{◌≡◌, length};
ghost use Rattle.modes.specs.Modes.{cbc_encrypt, cbc_decrypt};
ghost use Rattle.blocks.specs.Written.{written};
ghost use Rattle.modes.specs.Outcome.{mode_answer};
ghost use Rattle.modes.specs.Laws.{CbcKeeps, CbcDecryptUndoes, CbcEncryptUndoes, CbcApart};
ghost use Rattle.std.proofs.Common.{rules};

use crate::machine::{Mode, apply};
use crate::parts::{filled, store_two};
use blocks::octets::xor;
use blocks::{Block, Refusal};

// Keeps the answer before. (No twin of decryption: there the mix comes after the step, and another piece is kept and lent.)
#[derive(Drop)]
struct Encryption {
    before: [u8; 16],
}

impl Mode for Encryption {
    ghost LEAST = { 16 };

    const LEAST: usize = 16;

    ghost makes = { λ s m x. cbc_encrypt m.image s.before x };

    ghost sized = { Prim.search rules };

    ghost none = { Prim.search rules };

    fn turn<B: Block>(&mut self, block: &mut B, p: [u8; 16]) -> [u8; 16] {
        let c = block.forward(xor(p, self.before));
        self.before = c;
        c
    }

    fn finish<B: Block>(&mut self, block: &mut B, rest: &[u8], out: &mut [u8]) {
        let (p, q) = rest.split_first_chunk().unwrap();
        let c = block.forward(xor(*p, self.before));
        let d = block.forward(xor(filled(q, [0; 16]), c));
        store_two(out, d, c);
    }
}

// Keeps the piece before.
#[derive(Drop)]
struct Decryption {
    before: [u8; 16],
}

impl Mode for Decryption {
    ghost LEAST = { 16 };

    const LEAST: usize = 16;

    ghost makes = { λ s m x. cbc_decrypt m.preimage s.before x };

    ghost sized = { Prim.search rules };

    ghost none = { Prim.search rules };

    fn turn<B: Block>(&mut self, block: &mut B, p: [u8; 16]) -> [u8; 16] {
        let x = xor(block.backward(p), self.before);
        self.before = p;
        x
    }

    fn turn_two<B: Block>(
        &mut self,
        block: &mut B,
        p: [u8; 16],
        q: [u8; 16],
    ) -> ([u8; 16], [u8; 16]) {
        let (a, b) = block.backward_two(p, q);
        let x = xor(a, self.before);
        self.before = q;
        (x, xor(b, p))
    }

    fn finish<B: Block>(&mut self, block: &mut B, rest: &[u8], out: &mut [u8]) {
        let (p, q) = rest.split_first_chunk().unwrap();
        let w = xor(block.backward(*p), filled(q, [0; 16]));
        let d = xor(block.backward(filled(q, w)), self.before);
        store_two(out, d, w);
    }
}

// Both calls are instances of `apply`, named for their theorems.
// Encrypts a message of 16 to 65,536 octets.
pub fn cbc_encrypt<B: Block>(
    block: &mut B,
    start: [u8; 16],
    message: &[u8],
    out: &mut [u8],
) -> Result<usize, Refusal>
    ensures answer { result ≡ mode_answer 16 (length message.now) (length out.old) }
    ensures text { out.new ≡ written result (cbc_encrypt (B.meaning block.old).image start message.now) out.old }
    ensures same { B.meaning block.new ≡ B.meaning block.old }
    ensures keeps { CbcKeeps }
    ensures undone { CbcDecryptUndoes }
    ensures apart { CbcApart }
{
    apply(&mut Encryption { before: start }, block, message, out)
}

// Decrypts a text of 16 to 65,536 octets.
pub fn cbc_decrypt<B: Block>(
    block: &mut B,
    start: [u8; 16],
    message: &[u8],
    out: &mut [u8],
) -> Result<usize, Refusal>
    ensures answer { result ≡ mode_answer 16 (length message.now) (length out.old) }
    ensures text { out.new ≡ written result (cbc_decrypt (B.meaning block.old).preimage start message.now) out.old }
    ensures same { B.meaning block.new ≡ B.meaning block.old }
    ensures keeps { CbcKeeps }
    ensures undone { CbcEncryptUndoes }
{
    apply(&mut Decryption { before: start }, block, message, out)
}
