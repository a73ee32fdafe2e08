// A mode as a small machine, and the one loop that drives every machine through a text.
ghost use Rattle.std.specs.Prelude.{◌≡◌, ℕ, ◌+◌, ◌-◌, ◌%◌, ◌<◌, ◌≤◌, ◌⊎◌, List, [], ◌++◌, length, take, drop};
ghost use Rattle.blocks.specs.Steps.{Step};
ghost use Rattle.blocks.specs.Written.{written};
ghost use Rattle.modes.specs.Outcome.{mode_answer, MayFollow};

use crate::parts::{store_two, whole_pieces};
use blocks::octets::LONGEST;
use blocks::{Block, Refusal};

// A mode, and what it keeps from piece to piece.
pub(crate) trait Mode {
    // The fewest octets that it takes.
    ghost LEAST: { ℕ };

    const LEAST: usize;

    // What it makes of a text, over a block's meaning.
    ghost makes: { Self → Step → List ℕ → List ℕ };

    // Takes the next piece of a text, a whole one: what follows is nothing, or again a text that the mode takes.
    fn turn<B: Block>(&mut self, block: &mut B, p: [u8; 16]) -> [u8; 16]
        ensures answer { (x : List ℕ) → MayFollow LEAST x → makes self.old (B.meaning block.old) (p ++ x) ≡ result ++ makes self.new (B.meaning block.old) x }
        ensures same { B.meaning block.new ≡ B.meaning block.old };

    // Takes the next two pieces; a mode whose pieces do not wait for each other writes its own.
    fn turn_two<B: Block>(
        &mut self,
        block: &mut B,
        p: [u8; 16],
        q: [u8; 16],
    ) -> ([u8; 16], [u8; 16])
        ensures answer { (x : List ℕ) → MayFollow LEAST x → makes self.old (B.meaning block.old) (p ++ (q ++ x)) ≡ result.0 ++ (result.1 ++ makes self.new (B.meaning block.old) x) }
        ensures same { B.meaning block.new ≡ B.meaning block.old }
    {
        let a = self.turn(block, p);
        let b = self.turn(block, q);
        (a, b)
    }

    // Takes the end of a text, whose last piece is short.
    fn finish<B: Block>(&mut self, block: &mut B, rest: &[u8], out: &mut [u8])
        requires { (LEAST < length rest.now) × (length rest.now < LEAST + 16) × (length out.old ≡ length rest.now) }
        ensures text { out.new ≡ makes self.old (B.meaning block.old) rest.now }
        ensures same { B.meaning block.new ≡ B.meaning block.old };

    ghost sized: { (LEAST ≡ 0) ⊎ (LEAST ≡ 16) };

    ghost none: { (s : Self) (m : Step) → makes s m [] ≡ [] };
}

// The number of octets to write, or the first rule that forbids it.
pub(crate) fn admit(least: usize, size: usize, room: usize) -> Result<usize, Refusal>
    ensures { result ≡ mode_answer least size room }
{
    if size > LONGEST {
        return Err(Refusal::LongMessage);
    }
    if size < least {
        return Err(Refusal::ShortMessage);
    }
    if room < size {
        return Err(Refusal::ShortOutput);
    }
    Ok(size)
}

// Puts a message through a mode, or says what forbids it: the one function that the public calls of ECB, CBC and CFB are instances of. They
// stay named for each mode and way, since the theorems of each stand on its own contract, and a clause cannot name a trait's law.
pub(crate) fn apply<T: Mode, B: Block>(
    mode: &mut T,
    block: &mut B,
    message: &[u8],
    out: &mut [u8],
) -> Result<usize, Refusal>
    ensures answer { result ≡ mode_answer T.Mode.LEAST (length message.now) (length out.old) }
    ensures text { out.new ≡ written result (T.Mode.makes mode.old (B.meaning block.old) message.now) out.old }
    ensures same { B.meaning block.new ≡ B.meaning block.old }
{
    let n = admit(T::LEAST, message.len(), out.len())?;
    run(mode, block, message, &mut out[0..n]);
    Ok(n)
}

// How many octets of a text of `n` go through a mode in whole pieces, before its end with the short one.
fn whole(n: usize, least: usize) -> usize
    requires { (least ≤ n) × ((least ≡ 0) ⊎ (least ≡ 16)) }
    ensures pieces { result % 16 ≡ 0 }
    ensures part { result ≤ n }
    ensures rest { (result ≡ n) ⊎ ((least < n - result) × (n - result < least + 16)) }
{
    if n % 16 == 0 {
        n
    } else {
        (n - least) / 16 * 16
    }
}

// Puts a text that a mode takes through it, into an output of the same length.
pub(crate) fn run<T: Mode, B: Block>(mode: &mut T, block: &mut B, text: &[u8], out: &mut [u8])
    requires { (T.Mode.LEAST ≤ length text.now) × (length out.old ≡ length text.now) }
    ensures text { out.new ≡ T.Mode.makes mode.old (B.meaning block.old) text.now }
    ensures same { B.meaning block.new ≡ B.meaning block.old }
{
    let end = whole(text.len(), T::LEAST);
    let (front, rest) = text.split_at(end);
    run_whole(mode, block, front, &mut out[..end]);
    if !rest.is_empty() {
        mode.finish(block, rest, &mut out[end..]);
    }
}

// Puts whole pieces through a mode, two at a time: what follows them is nothing, or again a text that the mode takes.
fn run_whole<T: Mode, B: Block>(mode: &mut T, block: &mut B, text: &[u8], out: &mut [u8])
    requires { (length text.now % 16 ≡ 0) × (length out.old ≡ length text.now) }
    ensures text { (x : List ℕ) → MayFollow T.Mode.LEAST x → T.Mode.makes mode.old (B.meaning block.old) (text.now ++ x) ≡ out.new ++ T.Mode.makes mode.new (B.meaning block.old) x }
    ensures same { B.meaning block.new ≡ B.meaning block.old }
{
    let (pairs, odd) = whole_pieces(text).as_chunks::<2>();
    // Written by place: after a write through `chunks_exact_mut` nothing is known of `out`.
    for (i, [p, q]) in pairs.iter().enumerate() {
        let (c, d) = mode.turn_two(block, *p, *q);
        store_two(&mut out[32 * i..32 * i + 32], c, d);
    }
    if let [p] = odd {
        let c = mode.turn(block, *p);
        out[32 * pairs.len()..].copy_from_slice(&c);
    }
}
