// The modes and the checksum over the BelT block: lengths, refusals and counting.
use crate::text::written;
use belt::BeltBlock;
use blocks::answers::answer_number;
use blocks::{BenchBlock, Refusal};
use modes::cbc::{cbc_decrypt, cbc_encrypt};
use modes::cfb::{cfb_decrypt, cfb_encrypt};
use modes::checksum::checksum;
use modes::ctr::ctr;
use modes::ecb::{ecb_decrypt, ecb_encrypt};
use std::alloc::AllocGlobal;
use std::array;
use std::process::Abort;
use std::test::Fail;

const KEY: [u8; 32] = [9; 32];

const START: [u8; 16] = [3; 16];

fn sample() -> [u8; 65_537] {
    array::from_fn(|j| (j % 251) as u8)
}

// ECB called as the modes that have a start; named, since a closure is proved anew at each of the three places.
pub fn ecb_encrypt_from(
    block: &mut BeltBlock,
    _start: [u8; 16],
    message: &[u8],
    out: &mut [u8],
) -> Result<usize, Refusal> {
    ecb_encrypt(block, message, out)
}

pub fn ecb_decrypt_from(
    block: &mut BeltBlock,
    _start: [u8; 16],
    message: &[u8],
    out: &mut [u8],
) -> Result<usize, Refusal> {
    ecb_decrypt(block, message, out)
}

// What a call writes of a text, over a block and from a start, to an output of so many octets.
pub fn run<F>(
    rt: &(impl Abort + AllocGlobal),
    call: &F,
    block: &mut BeltBlock,
    start: [u8; 16],
    text: &[u8],
    room: usize,
) -> Result<Vec<u8>, Refusal>
where
    F: Fn(&mut BeltBlock, [u8; 16], &[u8], &mut [u8]) -> Result<usize, Refusal>,
    requires { F.IsAlwaysCallable call.now }
{
    written(rt, room, |out| call(block, start, text, out))
}

// A message there and back, or the refusal of its length.
fn there_and_back<There, Back>(
    rt: &(impl Abort + AllocGlobal),
    block: &mut BeltBlock,
    least: usize,
    message: &[u8],
    there: &There,
    back: &Back,
) -> Result<(), Fail>
where
    There: Fn(&mut BeltBlock, [u8; 16], &[u8], &mut [u8]) -> Result<usize, Refusal>,
    Back: Fn(&mut BeltBlock, [u8; 16], &[u8], &mut [u8]) -> Result<usize, Refusal>,
    requires there { There.IsAlwaysCallable there.now }
    requires back { Back.IsAlwaysCallable back.now }
{
    let text = run(rt, there, block, START, message, 65_540);
    if message.len() > 65_536 {
        assert_eq!(rt; answer_number(&text), 32);
        assert_eq!(rt; text, Err(Refusal::LongMessage));
    } else if message.len() < least {
        assert_eq!(rt; answer_number(&text), 33);
        assert_eq!(rt; text, Err(Refusal::ShortMessage));
    } else {
        assert_eq!(rt; answer_number(&text), 0);
        let text = text?;
        assert_eq!(rt; text.len(), message.len());
        let again = run(rt, back, block, START, &text, 65_540)?;
        assert_eq!(rt; again.as_slice(), message);
    }
    Ok(())
}

// Every length, encrypted and decrypted, and the other way round.
fn both_ways<E, D>(
    rt: &(impl Abort + AllocGlobal),
    block: &mut BeltBlock,
    least: usize,
    encrypt: E,
    decrypt: D,
) -> Result<(), Fail>
where
    E: Fn(&mut BeltBlock, [u8; 16], &[u8], &mut [u8]) -> Result<usize, Refusal>,
    D: Fn(&mut BeltBlock, [u8; 16], &[u8], &mut [u8]) -> Result<usize, Refusal>,
    requires encrypt { E.IsAlwaysCallable encrypt }
    requires decrypt { D.IsAlwaysCallable decrypt }
{
    let x = sample();
    for message in [
        &x[..0],
        &x[..1],
        &x[..15],
        &x[..16],
        &x[..17],
        &x[..31],
        &x[..32],
        &x[..33],
        &x[..65_536],
        &x,
    ] {
        there_and_back(rt, block, least, message, &encrypt, &decrypt)?;
        there_and_back(rt, block, least, message, &decrypt, &encrypt)?;
    }
    Ok(())
}

#[test]
fn lengths(rt: HostRuntime) -> Result<(), Fail> {
    let mut block = BeltBlock::new(&KEY)?;
    both_ways(&rt, &mut block, 16, ecb_encrypt_from, ecb_decrypt_from)?;
    both_ways(&rt, &mut block, 16, cbc_encrypt, cbc_decrypt)?;
    both_ways(&rt, &mut block, 0, cfb_encrypt, cfb_decrypt)?;
    both_ways(&rt, &mut block, 0, ctr, ctr)?;
    assert_eq!(rt; Refusal::LongMessage.number(), 32);
    assert_eq!(rt; Refusal::ShortMessage.number(), 33);
    Ok(())
}

// A long message comes before a short one, and that before a short output; no refusal writes.
fn refuses<F>(rt: &(impl Abort + AllocGlobal), block: &mut BeltBlock, of_fifteen: Refusal, call: F)
where
    F: Fn(&mut BeltBlock, [u8; 16], &[u8], &mut [u8]) -> Result<usize, Refusal>,
    requires { F.IsAlwaysCallable call }
{
    let x = sample();
    for (message, room, refusal) in [
        (&x[..], 47, Refusal::LongMessage),
        (&x[..48], 47, Refusal::ShortOutput),
        (&x[..15], 14, of_fifteen),
    ] {
        let answer = run(rt, &call, block, START, message, room);
        assert_eq!(rt; answer_number(&answer), refusal.number());
        assert_eq!(rt; answer, Err(refusal), "output of {room}");
    }
}

fn checksum_refuses(rt: &impl Abort, block: &mut BeltBlock) {
    let message = sample();
    let longest = &message[..65_536];
    assert_eq!(rt; checksum(block, &message), Err(Refusal::LongMessage));
    assert_eq!(rt; answer_number(&checksum(block, &message)), 32);
    assert_eq!(rt; answer_number(&checksum(block, longest)), 0);
    assert_eq!(rt; answer_number(&checksum(block, &[])), 0);
}

#[test]
fn refusals(rt: HostRuntime) -> Result<(), Fail> {
    let mut block = BeltBlock::new(&KEY)?;
    refuses(&rt, &mut block, Refusal::ShortMessage, ecb_encrypt_from);
    refuses(&rt, &mut block, Refusal::ShortMessage, ecb_decrypt_from);
    refuses(&rt, &mut block, Refusal::ShortMessage, cbc_encrypt);
    refuses(&rt, &mut block, Refusal::ShortMessage, cbc_decrypt);
    refuses(&rt, &mut block, Refusal::ShortOutput, cfb_encrypt);
    refuses(&rt, &mut block, Refusal::ShortOutput, cfb_decrypt);
    refuses(&rt, &mut block, Refusal::ShortOutput, ctr);
    checksum_refuses(&rt, &mut block);
    assert_eq!(rt; Refusal::LongMessage.number(), 32);
    assert_eq!(rt; Refusal::ShortMessage.number(), 33);
    assert_eq!(rt; Refusal::ShortOutput.number(), 31);
    Ok(())
}

// Over the bench block without a mask, which only turns the octets round, the count is seen: its first octet is the least.
#[test]
fn counts(rt: HostRuntime) -> Result<(), Fail> {
    let mut block = BenchBlock::new([0; 16]);
    let mut out = [85; 16];
    for (start, count) in [(0xFF_u128, 0x0100), (u128::MAX, 0)] {
        assert_eq!(rt;
            ctr(&mut block, start.to_be_bytes(), &[0; 16], &mut out)?,
            16
        );
        assert_eq!(rt; u128::from_be_bytes(out), count);
    }
    Ok(())
}
