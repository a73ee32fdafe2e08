// Two blocks as one.
ghost use Rattle.std.specs.Prelude.{◌≡◌};
ghost use Rattle.blocks.specs.Steps.{and_then};
ghost use Rattle.blocks.specs.Reversed.{reversible-pair};

use crate::Block;

// A block that steps forward through the first and then the second. A part may be a pair again.
#[derive(Drop)]
pub struct PairBlock<A, B> {
    first: A,
    second: B,
}

impl<A: Block, B: Block> PairBlock<A, B> {
    pub fn new(first: A, second: B) -> Self
        ensures { (result.first ≡ first) × (result.second ≡ second) }
    {
        PairBlock { first, second }
    }
}

// Each way is written out: the way back goes through the parts in the other order.
impl<A: Block, B: Block> Block for PairBlock<A, B> {
    ghost meaning = { λ s. and_then (A.meaning s.first) (B.meaning s.second) };

    ghost reversible = { λ s. reversible-pair _ _ (A.Block.reversible s.first) (B.Block.reversible s.second) };

    fn forward(&mut self, p: [u8; 16]) -> [u8; 16] {
        let q = self.first.forward(p);
        self.second.forward(q)
    }

    fn backward(&mut self, c: [u8; 16]) -> [u8; 16] {
        let q = self.second.backward(c);
        self.first.backward(q)
    }

    fn forward_two(&mut self, p: [u8; 16], q: [u8; 16]) -> ([u8; 16], [u8; 16]) {
        let (a, b) = self.first.forward_two(p, q);
        self.second.forward_two(a, b)
    }

    fn backward_two(&mut self, c: [u8; 16], d: [u8; 16]) -> ([u8; 16], [u8; 16]) {
        let (a, b) = self.second.backward_two(c, d);
        self.first.backward_two(a, b)
    }
}
