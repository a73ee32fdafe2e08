// ECB: each piece on its own.
ghost use Rattle.std.specs.Prelude.{◌≡◌, ℕ, List, length};
ghost use Rattle.blocks.specs.Steps.{Step};
ghost use Rattle.modes.specs.Modes.{ecb};
ghost use Rattle.blocks.specs.Written.{written};
ghost use Rattle.modes.specs.Outcome.{mode_answer};
ghost use Rattle.modes.specs.Laws.{EcbKeeps, EcbDecryptUndoes, EcbEncryptUndoes, EcbApart};
ghost use Rattle.std.proofs.Common.{rules};

use crate::machine::{Mode, apply};
use crate::parts::{filled, store_two};
use blocks::{Block, Refusal};
use std::marker::PhantomData;

// Which way a block is stepped.
trait Way {
    // What a step answers, of a block's meaning.
    ghost way: { Step → List ℕ → List ℕ };

    fn step<B: Block>(block: &mut B, p: [u8; 16]) -> [u8; 16]
        ensures answer { result ≡ way (B.meaning block.old) p }
        ensures same { B.meaning block.new ≡ B.meaning block.old };

    fn step_two<B: Block>(block: &mut B, p: [u8; 16], q: [u8; 16]) -> ([u8; 16], [u8; 16])
        ensures first { result.0 ≡ way (B.meaning block.old) p }
        ensures second { result.1 ≡ way (B.meaning block.old) q }
        ensures same { B.meaning block.new ≡ B.meaning block.old };
}

#[derive(Drop)]
struct Forward;

impl Way for Forward {
    ghost way = { λ m. m.image };

    fn step<B: Block>(block: &mut B, p: [u8; 16]) -> [u8; 16] {
        block.forward(p)
    }

    fn step_two<B: Block>(block: &mut B, p: [u8; 16], q: [u8; 16]) -> ([u8; 16], [u8; 16]) {
        block.forward_two(p, q)
    }
}

#[derive(Drop)]
struct Backward;

impl Way for Backward {
    ghost way = { λ m. m.preimage };

    fn step<B: Block>(block: &mut B, p: [u8; 16]) -> [u8; 16] {
        block.backward(p)
    }

    fn step_two<B: Block>(block: &mut B, p: [u8; 16], q: [u8; 16]) -> ([u8; 16], [u8; 16]) {
        block.backward_two(p, q)
    }
}

// Keeps nothing from piece to piece.
#[derive(Drop)]
struct Ecb<W> {
    way: PhantomData<W>,
}

impl<W: Way> Mode for Ecb<W> {
    ghost LEAST = { 16 };

    const LEAST: usize = 16;

    ghost makes = { λ s m x. ecb (W.way m) x };

    ghost sized = { Prim.search rules };

    ghost none = { Prim.search rules };

    fn turn<B: Block>(&mut self, block: &mut B, p: [u8; 16]) -> [u8; 16] {
        W::step(block, p)
    }

    fn turn_two<B: Block>(
        &mut self,
        block: &mut B,
        p: [u8; 16],
        q: [u8; 16],
    ) -> ([u8; 16], [u8; 16]) {
        W::step_two(block, p, q)
    }

    fn finish<B: Block>(&mut self, block: &mut B, rest: &[u8], out: &mut [u8]) {
        let (p, q) = rest.split_first_chunk().unwrap();
        let c = W::step(block, *p);
        let d = W::step(block, filled(q, c));
        store_two(out, d, c);
    }
}

// Both calls are instances of `apply`, named for their theorems.
// Encrypts a message of 16 to 65,536 octets.
pub fn ecb_encrypt<B: Block>(
    block: &mut B,
    message: &[u8],
    out: &mut [u8],
) -> Result<usize, Refusal>
    ensures answer { result ≡ mode_answer 16 (length message.now) (length out.old) }
    ensures text { out.new ≡ written result (ecb (B.meaning block.old).image message.now) out.old }
    ensures same { B.meaning block.new ≡ B.meaning block.old }
    ensures keeps { EcbKeeps }
    ensures undone { EcbDecryptUndoes }
    ensures apart { EcbApart }
{
    apply(
        &mut Ecb::<Forward> { way: PhantomData },
        block,
        message,
        out,
    )
}

// Decrypts a text of 16 to 65,536 octets.
pub fn ecb_decrypt<B: Block>(
    block: &mut B,
    message: &[u8],
    out: &mut [u8],
) -> Result<usize, Refusal>
    ensures answer { result ≡ mode_answer 16 (length message.now) (length out.old) }
    ensures text { out.new ≡ written result (ecb (B.meaning block.old).preimage message.now) out.old }
    ensures same { B.meaning block.new ≡ B.meaning block.old }
    ensures keeps { EcbKeeps }
    ensures undone { EcbEncryptUndoes }
{
    apply(
        &mut Ecb::<Backward> { way: PhantomData },
        block,
        message,
        out,
    )
}
