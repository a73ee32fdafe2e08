// The BelT block, one block and two blocks at a time.
ghost use Rattle.std.specs.Prelude.{◌≡◌, ℕ, ◌+◌, ◌-◌, ◌*◌, ◌<◌, ◌≤◌, List, [], ◌∷◌, length, slice_index};
ghost use Rattle.belt.specs.Words.{word_at, rotated, h, g};
ghost use Rattle.belt.specs.Wordwise.{Turn};
ghost use Rattle.belt.specs.Cipher.{steps, swaps_forward, swaps_backward, round_forward, round_backward, loaded, stored, encrypt, decrypt, belt};
ghost use Rattle.belt.specs.Keys.{key_words, block_answer};
ghost use Rattle.belt.specs.Inverse.{Inverse};
ghost use Rattle.belt.specs.Cases.{BlockCases};
ghost use Rattle.belt.specs.Undoing.{belt-reversible};
ghost use Rattle.belt.specs.Ways.{IsRound, IsWay, round-one-forward, round-one-backward, encrypt-all, decrypt-all};
ghost use Rattle.belt.specs.declared.cipher.Quad.{Quad};

use crate::keys::expand;
use crate::tables::ROTATED;
use blocks::octets::Number;
use blocks::{Block, Refusal};
use std::array;

// The four words of a block.
#[derive(Clone, Copy)]
struct Quad {
    a: u32,
    b: u32,
    c: u32,
    d: u32,
}

// The table's entry at x, rotated left by 5, 13, 21 or 29 bits.
fn rotated(place: usize, x: u8) -> u32
    requires { place < 4 }
    ensures entry { result ≡ rotated (5 + 8 * place) (h x) }
    ensures bound { result ≤ rotated (5 + 8 * place) 255 }
{
    ROTATED[place][x as usize]
}

// The table's entry at each octet, then a rotation by 5, 13 or 21 bits: the four entries have no bit in common, so their sum has no carry.
fn g<const R: usize>(u: u32) -> u32
    requires { Turn R }
    ensures { result ≡ g R u }
{
    let first = R / 8;
    let [o0, o1, o2, o3] = u.field();
    rotated(first, o0)
        + rotated((first + 1) % 4, o1)
        + rotated((first + 2) % 4, o2)
        + rotated((first + 3) % 4, o3)
}

// The nine steps of round i.
#[inline(always)]
#[tactic(auto, unfolding(crate::specs::Cipher::steps))]
fn nine_steps(i: u32, k: [u32; 7], s: Quad) -> Quad
    ensures { result ≡ steps i (slice_index k 0) (slice_index k 1) (slice_index k 2) (slice_index k 3) (slice_index k 4) (slice_index k 5) (slice_index k 6) s }
{
    let Quad {
        mut a,
        mut b,
        mut c,
        mut d,
    } = s;
    b ^= g::<5>(a.wrapping_add(k[0]));
    c ^= g::<21>(d.wrapping_add(k[1]));
    a = a.wrapping_sub(g::<13>(b.wrapping_add(k[2])));
    let e = g::<21>(b.wrapping_add(c).wrapping_add(k[3])) ^ i;
    b = b.wrapping_add(e);
    c = c.wrapping_sub(e);
    d = d.wrapping_add(g::<13>(c.wrapping_add(k[4])));
    b ^= g::<21>(a.wrapping_add(k[5]));
    c ^= g::<5>(d.wrapping_add(k[6]));
    Quad { a, b, c, d }
}

// The word that four octets write, from a place on. Blocks and keys each take their words by `array::from_fn`: for a number of words that is
// a parameter the proof did not close.
fn word(octets: &[u8], at: usize) -> u32
    requires { at + 4 ≤ length octets.now }
    ensures { result ≡ word_at octets.now at }
{
    u32::number(octets[at..].first_chunk().unwrap())
}

fn load(x: [u8; 16]) -> Quad
    ensures { result ≡ loaded x }
{
    let words: [u32; 4] = array::from_fn(|i| word(&x, 4 * i));
    let [a, b, c, d] = words;
    Quad { a, b, c, d }
}

fn store(s: Quad) -> [u8; 16]
    ensures { result ≡ stored s }
{
    let fields = [s.a.field(), s.b.field(), s.c.field(), s.d.field()];
    array::from_fn(|i| fields[i / 4][i % 4])
}

// A way through the rounds.
trait Way {
    // What the way makes of a block under a key, what a round makes of the words, and their order after it.
    ghost image: { List ℕ → List ℕ → List ℕ };

    ghost round: { List ℕ → ℕ → Quad → Quad };

    ghost swaps: { Quad → Quad };

    // The eight rounds in their order, counted from 0, and the place of key j of a round.
    ghost ROUNDS: { List ℕ };

    ghost place: { ℕ → ℕ → ℕ };

    const ROUNDS: [u8; 8];

    fn place(i: u8, j: usize) -> usize
        requires { j < 7 }
        ensures { result ≡ place i j };

    fn swap(s: Quad) -> Quad
        ensures { result ≡ swaps s };

    ghost one: { IsRound round swaps place };

    ghost all: { IsWay image round swaps ROUNDS };
}

struct Forward;

struct Backward;

impl Way for Forward {
    ghost image = { encrypt };

    ghost round = { round_forward };

    ghost swaps = { swaps_forward };

    ghost ROUNDS = { 0 ∷ 1 ∷ 2 ∷ 3 ∷ 4 ∷ 5 ∷ 6 ∷ 7 ∷ [] };

    ghost place = { λ i j. 7 * i + j };

    ghost one = { round-one-forward };

    ghost all = { encrypt-all };

    const ROUNDS: [u8; 8] = [0, 1, 2, 3, 4, 5, 6, 7];

    fn place(i: u8, j: usize) -> usize {
        7 * i as usize + j
    }

    fn swap(s: Quad) -> Quad {
        Quad {
            a: s.b,
            b: s.d,
            c: s.a,
            d: s.c,
        }
    }
}

impl Way for Backward {
    ghost image = { decrypt };

    ghost round = { round_backward };

    ghost swaps = { swaps_backward };

    ghost ROUNDS = { 7 ∷ 6 ∷ 5 ∷ 4 ∷ 3 ∷ 2 ∷ 1 ∷ 0 ∷ [] };

    ghost place = { λ i j. 7 * i + (6 - j) };

    ghost one = { round-one-backward };

    ghost all = { decrypt-all };

    const ROUNDS: [u8; 8] = [7, 6, 5, 4, 3, 2, 1, 0];

    fn place(i: u8, j: usize) -> usize {
        7 * i as usize + (6 - j)
    }

    fn swap(s: Quad) -> Quad {
        Quad {
            a: s.c,
            b: s.a,
            c: s.d,
            d: s.b,
        }
    }
}

// The BelT block: eight words of an expanded key.
#[derive(Clone, Copy)]
pub struct BeltBlock {
    key: [u32; 8],
}

impl BeltBlock {
    // The block with a key of 16, 24 or 32 octets.
    pub fn new(key: &[u8]) -> Result<BeltBlock, Refusal>
        ensures { result ≡ block_answer key.now }
    {
        Ok(BeltBlock::with_expanded(expand(key)?))
    }

    // The block with an expanded key.
    pub(crate) fn with_expanded(x: [u8; 32]) -> BeltBlock
        ensures { result.key ≡ key_words x }
    {
        let key = array::from_fn(|i| word(&x, 4 * i));
        BeltBlock { key }
    }

    // Round i of a way, counted from 0.
    #[inline(always)]
    fn round<W: Way>(&self, i: u8, s: Quad) -> Quad
        ensures { result ≡ W.round self.now.key (i + 1) s }
    {
        let keys = array::from_fn(|j| self.key[W::place(i, j) % 8]);
        W::swap(nine_steps(i as u32 + 1, keys, s))
    }

    // One block, a whole way.
    fn pass<W: Way>(&self, x: [u8; 16]) -> [u8; 16]
        ensures { result ≡ W.image self.now.key x }
    {
        let mut s = load(x);
        for i in W::ROUNDS {
            s = self.round::<W>(i, s);
        }
        store(W::swap(s))
    }

    // Round i of two blocks that do not wait for each other.
    #[inline(always)]
    fn round_two<W: Way>(&self, i: u8, s: (Quad, Quad)) -> (Quad, Quad)
        ensures first { result.0 ≡ W.round self.now.key (i + 1) s.0 }
        ensures second { result.1 ≡ W.round self.now.key (i + 1) s.1 }
    {
        (self.round::<W>(i, s.0), self.round::<W>(i, s.1))
    }

    // Two blocks. The rounds are written out, each with its keys at fixed places: a loop takes 1.16 times as long.
    fn pass_two<W: Way>(&self, x: [u8; 16], y: [u8; 16]) -> ([u8; 16], [u8; 16])
        ensures first { result.0 ≡ W.image self.now.key x }
        ensures second { result.1 ≡ W.image self.now.key y }
    {
        let rounds = W::ROUNDS;
        let s = (load(x), load(y));
        let s = self.round_two::<W>(rounds[0], s);
        let s = self.round_two::<W>(rounds[1], s);
        let s = self.round_two::<W>(rounds[2], s);
        let s = self.round_two::<W>(rounds[3], s);
        let s = self.round_two::<W>(rounds[4], s);
        let s = self.round_two::<W>(rounds[5], s);
        let s = self.round_two::<W>(rounds[6], s);
        let s = self.round_two::<W>(rounds[7], s);
        (store(W::swap(s.0)), store(W::swap(s.1)))
    }
}

impl Block for BeltBlock {
    ghost meaning = { λ s. belt s.key };

    ghost reversible = { λ s. belt-reversible s.key };

    fn forward(&mut self, p: [u8; 16]) -> [u8; 16] {
        self.pass::<Forward>(p)
    }

    fn backward(&mut self, c: [u8; 16]) -> [u8; 16] {
        self.pass::<Backward>(c)
    }

    fn forward_two(&mut self, p: [u8; 16], q: [u8; 16]) -> ([u8; 16], [u8; 16]) {
        self.pass_two::<Forward>(p, q)
    }

    fn backward_two(&mut self, c: [u8; 16], d: [u8; 16]) -> ([u8; 16], [u8; 16]) {
        self.pass_two::<Backward>(c, d)
    }
}

// The block's laws: each direction undoes the other under every key, and the worked example holds of the definitions.
pub fn block_stands()
    ensures inverse { Inverse }
    ensures cases { BlockCases }
{}
