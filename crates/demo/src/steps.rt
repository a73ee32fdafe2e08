// A block through BelT, and through a pair of blocks.
ghost use Rattle.std.specs.Prelude.{◌≡◌};

use belt::BeltBlock;
use blocks::{BenchBlock, Block, PairBlock};
use hexadecimal::Hex;
use std::io;

#[inline(never)]
pub fn show(rt: &HostRuntime, belt: &mut BeltBlock, block: [u8; 16]) -> io::Result<()> {
    println!(rt; "by BelT")?;
    show_steps(rt, belt, block)?;
    println!(rt; "by the pair of BelT and the bench block with mask 00..0F")?;
    let bench = BenchBlock::new([0, 1, 2, 3, 4, 5, 6, 7, 8, 9, 10, 11, 12, 13, 14, 15]);
    show_steps(rt, &mut PairBlock::new(*belt, bench), block)
}

// Prints the image of a block, and the block that comes back from it.
fn show_steps<B: Block>(rt: &HostRuntime, steps: &mut B, block: [u8; 16]) -> io::Result<()> {
    let (image, back) = there_and_back(steps, block);
    println!(rt; "  image   {}", Hex(&image))?;
    println!(rt; "  back    {}", Hex(&back))
}

// A block's image and what the image leads back to: the block, whatever the steps.
fn there_and_back<B: Block>(steps: &mut B, p: [u8; 16]) -> ([u8; 16], [u8; 16])
    ensures image { result.0 ≡ (B.meaning steps.old).image p }
    ensures back { result.1 ≡ p }
{
    let image = steps.forward(p);
    let back = steps.backward(image);
    (image, back)
}
