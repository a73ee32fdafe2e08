// A short text in each mode, its checksum and its hash.
use crate::stop::Stop;
use belt::BeltBlock;
use belt::hash::hash;
use blocks::Refusal;
use hexadecimal::Hex;
use modes::cbc::{cbc_decrypt, cbc_encrypt};
use modes::cfb::{cfb_decrypt, cfb_encrypt};
use modes::checksum::checksum;
use modes::ctr::ctr;
use modes::ecb::{ecb_decrypt, ecb_encrypt};

const SIZE: usize = 35;

const TEXT: [u8; SIZE] = *b"door 7 at night, and door 12 by day";

const START: [u8; 16] = *b"a start of its o";

#[inline(never)]
pub fn show(rt: &HostRuntime, belt: &mut BeltBlock) -> Result<(), Stop> {
    println!(rt; "the text  {}", Hex(&TEXT))?;
    show_mode(rt, belt, "ECB", ecb_encrypt, ecb_decrypt)?;
    show_mode(
        rt,
        belt,
        "CBC",
        |block, text, out| cbc_encrypt(block, START, text, out),
        |block, text, out| cbc_decrypt(block, START, text, out),
    )?;
    show_mode(
        rt,
        belt,
        "CFB",
        |block, text, out| cfb_encrypt(block, START, text, out),
        |block, text, out| cfb_decrypt(block, START, text, out),
    )?;
    show_mode(
        rt,
        belt,
        "CTR",
        |block, text, out| ctr(block, START, text, out),
        |block, text, out| ctr(block, START, text, out),
    )?;
    println!(rt; "  checksum {}", Hex(&checksum(belt, &TEXT)?))?;
    println!(rt; "  hash    {}", Hex(&hash(&TEXT)?))?;
    Ok(())
}

// Prints the text enciphered, and whether it is restored from that.
fn show_mode<E, D>(
    rt: &HostRuntime,
    belt: &mut BeltBlock,
    name: &str,
    encrypt: E,
    decrypt: D,
) -> Result<(), Stop>
where
    E: FnOnce(&mut BeltBlock, &[u8], &mut [u8]) -> Result<usize, Refusal>,
    D: FnOnce(&mut BeltBlock, &[u8], &mut [u8]) -> Result<usize, Refusal>,
    requires encrypts { E.IsAlwaysCallable encrypt }
    requires decrypts { D.IsAlwaysCallable decrypt }
{
    let mut cipher = [0; SIZE];
    let mut plain = [0; SIZE];
    encrypt(belt, &TEXT, &mut cipher)?;
    println!(rt; "  {name}     {}", Hex(&cipher))?;
    decrypt(belt, &cipher, &mut plain)?;
    let restored = if plain == TEXT { "restored" } else { "lost" };
    println!(rt; "          {restored}")?;
    Ok(())
}
