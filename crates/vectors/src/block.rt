// The block interface, its three blocks, the expansion of keys, and the numbers of refusals.
use crate::text::{KEY, array};
use belt::BeltBlock;
use belt::keys::expand;
use blocks::answers::answer_number;
use blocks::octets::Number;
use blocks::{BenchBlock, Block, PairBlock, Refusal};
use std::process::Abort;
use std::test::Fail;

// A block takes p to c and c back to p, alone and two at a time.
pub fn takes<B: Block>(rt: &impl Abort, block: &mut B, p: [u8; 16], c: [u8; 16]) {
    assert_eq!(rt; block.forward(p), c);
    assert_eq!(rt; block.backward(c), p);
    let (image, other) = block.forward_two(p, c);
    assert_eq!(rt; image, c);
    assert_eq!(rt; block.backward(other), c);
    let (back, other) = block.backward_two(c, p);
    assert_eq!(rt; back, p);
    assert_eq!(rt; block.forward(other), p);
}

#[test]
fn two_blocks_at_a_time(rt: HostRuntime) -> Result<(), Fail> {
    takes(
        &rt,
        &mut BeltBlock::new(&KEY)?,
        array("B194BAC80A08F53B366D008E584A5DE4")?,
        array("69CCA1C93557C9E3D66BC3E0FA88FA6E")?,
    );
    Ok(())
}

#[test]
fn short_keys_step_as_their_expansions(rt: HostRuntime) -> Result<(), Fail> {
    let p = [7; 16];
    for key in [&KEY[..16], &KEY[..24]] {
        let mut short = BeltBlock::new(key)?;
        let mut long = BeltBlock::new(&expand(key)?)?;
        assert_eq!(rt; short.forward(p), long.forward(p));
    }
    Ok(())
}

#[test]
fn other_key_lengths_are_refused(rt: HostRuntime) -> Result<(), Fail> {
    for n in [0, 1, 15, 17, 23, 25, 31, 33, 64] {
        let key = vec![in rt.alloc(); 7; n]?;
        assert_eq!(rt; expand(&key), Err(Refusal::KeyLength), "{n} octets");
        assert_eq!(rt; answer_number(&expand(&key)), 34);
        assert_eq!(rt; BeltBlock::new(&key).err(), Some(Refusal::KeyLength));
        assert_eq!(rt; answer_number(&BeltBlock::new(&key)), 34);
    }
    assert_eq!(rt; BeltBlock::new(&[7; 24]).err(), None);
    assert_eq!(rt; answer_number(&BeltBlock::new(&[7; 24])), 0);
    Ok(())
}

#[test]
fn bench_and_pairs(rt: HostRuntime) -> Result<(), Fail> {
    let p = array("000102030405060708090A0B0C0D0E0F")?;
    let mut plain = BenchBlock::new([0; 16]);
    takes(
        &rt,
        &mut plain,
        p,
        array("0F0E0D0C0B0A09080706050403020100")?,
    );
    let mut masked = BenchBlock::new(array("F0000000000000000000000000000001")?);
    takes(
        &rt,
        &mut masked,
        p,
        array("FF0E0D0C0B0A09080706050403020101")?,
    );
    let mut pair = PairBlock::new(plain, masked);
    takes(
        &rt,
        &mut pair,
        p,
        array("F00102030405060708090A0B0C0D0E0E")?,
    );
    let mut nested = PairBlock::new(pair, BeltBlock::new(&KEY)?);
    let c = nested.forward(p);
    takes(&rt, &mut nested, p, c);
    Ok(())
}

#[test]
fn least_octet_first(rt: HostRuntime) -> Result<(), Fail> {
    assert_eq!(rt; u16::number(&[0x34, 0x12]), 0x1234);
    assert_eq!(rt; 0x1234_u16.field(), [0x34, 0x12]);
    assert_eq!(rt; u32::number(&[0x78, 0x56, 0x34, 0x12]), 0x12345678);
    assert_eq!(rt; 0x12345678_u32.field(), [0x78, 0x56, 0x34, 0x12]);
    assert_eq!(rt; u64::number(&[1, 0, 0, 0, 0, 0, 0, 2]), 0x0200000000000001);
    assert_eq!(rt; 0x0200000000000001_u64.field(), [1, 0, 0, 0, 0, 0, 0, 2]);
    assert_eq!(rt;
        u128::number(&array("01000000000000000000000000000003")?),
        (3 << 120) + 1
    );
    assert_eq!(rt;
        ((3_u128 << 120) + 1).field(),
        array("01000000000000000000000000000003")?
    );
    Ok(())
}

// Other tests name a refusal; here are their numbers.
#[test]
fn numbers_of_refusals(rt: HostRuntime) {
    for (refusal, number) in [
        (Refusal::TagLength, 11),
        (Refusal::TagLetters, 12),
        (Refusal::TagChecksum, 13),
        (Refusal::TagFields, 14),
        (Refusal::OtherSite, 15),
        (Refusal::ShortOutput, 31),
        (Refusal::LongMessage, 32),
        (Refusal::ShortMessage, 33),
        (Refusal::KeyLength, 34),
        (Refusal::KeyTextLength, 35),
        (Refusal::ZeroNumber, 36),
        (Refusal::TooFewCells, 46),
        (Refusal::WrappedLength, 51),
        (Refusal::HeaderDiffers, 52),
    ] {
        assert_eq!(rt; refusal.number(), number);
        let refused: Result<(), Refusal> = Err(refusal);
        assert_eq!(rt; answer_number(&refused), number);
    }
    let accepted: Result<(), Refusal> = Ok(());
    assert_eq!(rt; answer_number(&accepted), 0);
}
