// CFB: each piece mixed with the image of the text before it.
ghost use Rattle.std.specs.Prelude.{◌≡◌, ℕ, List, length};
ghost use Rattle.blocks.specs.Octets.{xor_each};
ghost use Rattle.modes.specs.Pieces.{pieces, glue};
ghost use Rattle.modes.specs.Rows.{streamed};
ghost use Rattle.modes.specs.Modes.{cfb_row, cfb_encrypt, cfb_decrypt};
ghost use Rattle.blocks.specs.Written.{written};
ghost use Rattle.modes.specs.Outcome.{mode_answer};
ghost use Rattle.modes.specs.Laws.{CfbKeeps, CfbDecryptUndoes, CfbEncryptUndoes, CfbApart};
ghost use Rattle.std.proofs.Common.{rules};

use crate::machine::{Mode, apply};
use crate::parts::mix;
use blocks::octets::xor;
use blocks::{Block, Refusal};
use std::marker::PhantomData;

// Which text is fed back: the image of it is what the next piece is mixed with.
trait Fed {
    // Of a piece and its answer.
    ghost fed: { List ℕ → List ℕ → List ℕ };

    fn fed(p: [u8; 16], c: [u8; 16]) -> [u8; 16]
        ensures { result ≡ fed p c };

    // The images that p and the piece after it are mixed with.
    fn images<B: Block>(block: &mut B, before: [u8; 16], p: [u8; 16]) -> ([u8; 16], [u8; 16])
        ensures first { result.0 ≡ (B.meaning block.old).image before }
        ensures second { result.1 ≡ (B.meaning block.old).image (fed p (xor_each p ((B.meaning block.old).image before))) }
        ensures same { B.meaning block.new ≡ B.meaning block.old };
}

// Encryption feeds the answer back.
#[derive(Drop)]
struct Answer;

impl Fed for Answer {
    ghost fed = { λ p c. c };

    fn fed(p: [u8; 16], c: [u8; 16]) -> [u8; 16] {
        c
    }

    fn images<B: Block>(block: &mut B, before: [u8; 16], p: [u8; 16]) -> ([u8; 16], [u8; 16]) {
        let a = block.forward(before);
        let b = block.forward(xor(p, a));
        (a, b)
    }
}

// Decryption feeds the piece back, so that its two images do not wait for each other.
#[derive(Drop)]
struct Piece;

impl Fed for Piece {
    ghost fed = { λ p c. p };

    fn fed(p: [u8; 16], c: [u8; 16]) -> [u8; 16] {
        p
    }

    fn images<B: Block>(block: &mut B, before: [u8; 16], p: [u8; 16]) -> ([u8; 16], [u8; 16]) {
        block.forward_two(before, p)
    }
}

// Keeps the text that was fed back.
#[derive(Drop)]
struct Cfb<F> {
    before: [u8; 16],
    fed: PhantomData<F>,
}

impl<F: Fed> Mode for Cfb<F> {
    ghost LEAST = { 0 };

    const LEAST: usize = 0;

    ghost makes = { λ s m x. glue (streamed (cfb_row F.fed m.image) s.before (pieces x)) };

    ghost sized = { Prim.search rules };

    ghost none = { Prim.search rules };

    fn turn<B: Block>(&mut self, block: &mut B, p: [u8; 16]) -> [u8; 16] {
        let c = xor(p, block.forward(self.before));
        self.before = F::fed(p, c);
        c
    }

    fn turn_two<B: Block>(
        &mut self,
        block: &mut B,
        p: [u8; 16],
        q: [u8; 16],
    ) -> ([u8; 16], [u8; 16]) {
        let (a, b) = F::images(block, self.before, p);
        let d = xor(q, b);
        self.before = F::fed(q, d);
        (xor(p, a), d)
    }

    fn finish<B: Block>(&mut self, block: &mut B, rest: &[u8], out: &mut [u8]) {
        mix(rest, block.forward(self.before), out);
    }
}

// Both ways: what is fed back first is the start.
fn fed_from<F>(start: [u8; 16]) -> Cfb<F>
    ensures { result.before ≡ start }
{
    Cfb {
        before: start,
        fed: PhantomData,
    }
}

// Both calls are instances of `apply`, named for their theorems.
// Encrypts a message of at most 65,536 octets.
pub fn cfb_encrypt<B: Block>(
    block: &mut B,
    start: [u8; 16],
    message: &[u8],
    out: &mut [u8],
) -> Result<usize, Refusal>
    ensures answer { result ≡ mode_answer 0 (length message.now) (length out.old) }
    ensures text { out.new ≡ written result (cfb_encrypt (B.meaning block.old).image start message.now) out.old }
    ensures same { B.meaning block.new ≡ B.meaning block.old }
    ensures keeps { CfbKeeps }
    ensures undone { CfbDecryptUndoes }
    ensures apart { CfbApart }
{
    apply(&mut fed_from::<Answer>(start), block, message, out)
}

// Decrypts a text of at most 65,536 octets.
pub fn cfb_decrypt<B: Block>(
    block: &mut B,
    start: [u8; 16],
    message: &[u8],
    out: &mut [u8],
) -> Result<usize, Refusal>
    ensures answer { result ≡ mode_answer 0 (length message.now) (length out.old) }
    ensures text { out.new ≡ written result (cfb_decrypt (B.meaning block.old).image start message.now) out.old }
    ensures same { B.meaning block.new ≡ B.meaning block.old }
    ensures keeps { CfbKeeps }
    ensures undone { CfbEncryptUndoes }
{
    apply(&mut fed_from::<Piece>(start), block, message, out)
}
