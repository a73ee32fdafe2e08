// CTR: each piece mixed with the image of a count.
ghost use Rattle.std.specs.Prelude.{◌≡◌, length};
ghost use Rattle.modes.specs.Pieces.{pieces, glue};
ghost use Rattle.modes.specs.Rows.{streamed};
ghost use Rattle.modes.specs.Modes.{counted, ctr_row, ctr};
ghost use Rattle.blocks.specs.Written.{written};
ghost use Rattle.modes.specs.Outcome.{mode_answer};
ghost use Rattle.modes.specs.Laws.{CtrKeeps, CtrUndoes, CtrApart};
ghost use Rattle.std.proofs.Common.{rules};

use crate::machine::{Mode, admit, run};
use crate::parts::mix;
use blocks::octets::{Number, xor};
use blocks::{Block, Refusal};

// One more, the first octet the least.
fn count(s: [u8; 16]) -> [u8; 16]
    ensures { result ≡ counted s }
{
    u128::number(&s).wrapping_add(1).field()
}

// Keeps the count.
#[derive(Drop)]
struct Counter {
    at: [u8; 16],
}

impl Mode for Counter {
    ghost LEAST = { 0 };

    const LEAST: usize = 0;

    ghost makes = { λ s m x. glue (streamed (ctr_row m.image) s.at (pieces x)) };

    ghost sized = { Prim.search rules };

    ghost none = { Prim.search rules };

    fn turn<B: Block>(&mut self, block: &mut B, p: [u8; 16]) -> [u8; 16] {
        let s = count(self.at);
        self.at = s;
        xor(p, block.forward(s))
    }

    fn turn_two<B: Block>(
        &mut self,
        block: &mut B,
        p: [u8; 16],
        q: [u8; 16],
    ) -> ([u8; 16], [u8; 16]) {
        let s = count(self.at);
        let t = count(s);
        let (a, b) = block.forward_two(s, t);
        self.at = t;
        (xor(p, a), xor(q, b))
    }

    fn finish<B: Block>(&mut self, block: &mut B, rest: &[u8], out: &mut [u8]) {
        mix(rest, block.forward(count(self.at)), out);
    }
}

// Encrypts and decrypts alike, at most 65,536 octets: the image of the start is what is counted from.
pub fn ctr<B: Block>(
    block: &mut B,
    start: [u8; 16],
    message: &[u8],
    out: &mut [u8],
) -> Result<usize, Refusal>
    ensures answer { result ≡ mode_answer 0 (length message.now) (length out.old) }
    ensures text { out.new ≡ written result (ctr (B.meaning block.old).image start message.now) out.old }
    ensures same { B.meaning block.new ≡ B.meaning block.old }
    ensures keeps { CtrKeeps }
    ensures undone { CtrUndoes }
    ensures apart { CtrApart }
{
    // No `apply`: a refused call is not to step the block.
    let n = admit(Counter::LEAST, message.len(), out.len())?;
    let at = block.forward(start);
    run(&mut Counter { at }, block, message, &mut out[..n]);
    Ok(n)
}
