// What everything else stands on: octets, the product's refusals, and blocks by their meaning.
#![tactic(auto)]

ghost use Rattle.std.specs.Prelude.{◌≡◌};
ghost use Rattle.blocks.specs.Steps.{Step, Reversible, OnePreimage};
ghost use Rattle.blocks.specs.Fields.{FieldsUndo};
ghost use Rattle.blocks.specs.Answers.{TellsRefusals};

pub mod answers;
pub mod bench;
pub mod octets;
pub mod pair;

pub use answers::Refusal;
pub use bench::BenchBlock;
pub use pair::PairBlock;

// A block: a step on sixteen octets that can be undone. No step refuses, and none alters what the block means.
// The two ways are functions of their own, since most callers take one; the code that serves both, ECB and BelT's rounds, has a type
// parameter for the way. That no step alters the meaning is said of each step, and of each call that is lent a block: it is lent as `&mut`
// and may keep something of its own.
pub trait Block {
    // The forward image of each sixteen octets, and the one block that has a given image.
    ghost meaning: { Self → Step };

    // The image of p.
    fn forward(&mut self, p: [u8; 16]) -> [u8; 16]
        ensures answer { result ≡ (meaning self.old).image p }
        ensures same { meaning self.new ≡ meaning self.old };

    // The block whose image is c.
    fn backward(&mut self, c: [u8; 16]) -> [u8; 16]
        ensures answer { result ≡ (meaning self.old).preimage c }
        ensures same { meaning self.new ≡ meaning self.old };

    // The images of two blocks that do not wait for each other; a block that is faster so writes its own.
    fn forward_two(&mut self, p: [u8; 16], q: [u8; 16]) -> ([u8; 16], [u8; 16])
        ensures first { result.0 ≡ (meaning self.old).image p }
        ensures second { result.1 ≡ (meaning self.old).image q }
        ensures same { meaning self.new ≡ meaning self.old }
    {
        let a = self.forward(p);
        let b = self.forward(q);
        (a, b)
    }

    // The two blocks whose images are c and d.
    fn backward_two(&mut self, c: [u8; 16], d: [u8; 16]) -> ([u8; 16], [u8; 16])
        ensures first { result.0 ≡ (meaning self.old).preimage c }
        ensures second { result.1 ≡ (meaning self.old).preimage d }
        ensures same { meaning self.new ≡ meaning self.old }
    {
        let a = self.backward(c);
        let b = self.backward(d);
        (a, b)
    }

    ghost reversible: { (s : Self) → Reversible (meaning s) };
}

// The laws of the vocabulary: under every reversible meaning each sixteen octets are the image of exactly one block, and at every width
// numbers and their octets undo each other; two refusals are equal exactly where they are the same one, which their numbers tell.
pub fn vocabulary_stands()
    ensures one { OnePreimage }
    ensures fields { FieldsUndo }
    ensures equality { TellsRefusals ⟦<Refusal as PartialEq>⟧.eq }
{}
