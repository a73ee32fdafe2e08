// The bench block: no cipher, but a step that is easy to follow by hand.
ghost use Rattle.std.specs.Prelude.{◌≡◌};
ghost use Rattle.std.proofs.Common.{sym, ap, ◌∙◌};
ghost use Rattle.blocks.specs.Octets.{Sixteen, xor_each};
ghost use Rattle.blocks.specs.Steps.{bench};
ghost use mathlib.Core.List;
ghost use Rattle.std.proofs.lemmas.List.{reverse-reverse, length-reverse};
ghost use Rattle.blocks.specs.Octetwise.{xor_each-undo, xor_each-sixteen, reverse-sixteen};

use crate::Block;
use crate::octets::xor;

// A block that turns the octets round and mixes in a mask.
#[derive(Drop)]
pub struct BenchBlock {
    mask: [u8; 16],
    ghost octets: { Sixteen mask },
}

impl BenchBlock {
    pub fn new(mask: [u8; 16]) -> Self
        ensures { result.mask ≡ mask }
    {
        BenchBlock { mask }
    }
}

impl Block for BenchBlock {
    ghost meaning = { λ s. bench s.mask };

    ghost reversible = { λ s.
        let m = s.mask in
        let o = s.octets in
        record {
          forth = λ p h. xor_each-sixteen (List.reverse p) m (reverse-sixteen p h) o;
          back = λ c h. reverse-sixteen (xor_each c m) (xor_each-sixteen c m h o);
          undone = λ p h. ap List.reverse (xor_each-undo (List.reverse p) m (length-reverse p ∙ h.0 ∙ sym o.0)) ∙ reverse-reverse p;
          met = λ c h. ap (λ x. xor_each x m) (reverse-reverse (xor_each c m)) ∙ xor_each-undo c m (h.0 ∙ sym o.0);
        } };

    fn forward(&mut self, p: [u8; 16]) -> [u8; 16] {
        let mut c = p;
        c.reverse();
        xor(c, self.mask)
    }

    fn backward(&mut self, c: [u8; 16]) -> [u8; 16] {
        let mut p = xor(c, self.mask);
        p.reverse();
        p
    }
}
