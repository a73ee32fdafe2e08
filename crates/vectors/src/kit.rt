// The kit: the three keys of a site, every length of key, and refusals.
use crate::text::{in_scratch, written};
use belt::BeltBlock;
use belt::transform::transform;
use blocks::Refusal;
use modes::wrap::wrap;
use rounds::kit::kit;
use std::alloc::AllocGlobal;
use std::process::Abort;
use std::test::Fail;

const HEADER: [u8; 16] = [7; 16];

// A site key, wrapped.
fn wrapped(rt: &(impl Abort + AllocGlobal), site_key: &[u8]) -> Result<Vec<u8>, Refusal> {
    let mut block = BeltBlock::new(&[9; 32])?;
    written(rt, 272, |out| wrap(&mut block, HEADER, site_key, out))
}

// The kit of a wrapped site key, made in a scratch and to an output of so many octets.
fn answer(
    rt: &(impl Abort + AllocGlobal),
    text: &[u8],
    header: [u8; 16],
    scratch_room: usize,
    room: usize,
) -> Result<Vec<u8>, Refusal> {
    let mut block = BeltBlock::new(&[9; 32])?;
    written(rt, room, |out| {
        in_scratch(rt, scratch_room, |scratch| {
            kit(&mut block, header, text, 258, scratch, out)
        })
    })
}

// The site key's transformations under the three headers, one after the other.
fn transformed(rt: &(impl Abort + AllocGlobal), site_key: &[u8]) -> Result<Vec<u8>, Fail> {
    let n = site_key.len();
    let mut keys = Vec::new(rt.alloc());
    for i in [1, 2, 3] {
        let header = [i, 2, 1, 0, 0, 0, 0, 0, 0, 0, 0, 0, 0, 0, 0, 0];
        let key = written(rt, 32, |out| transform(site_key, [0; 12], header, n, out))?;
        assert_eq!(rt; key.len(), n);
        keys.extend_from_slice(&key)?;
    }
    Ok(keys)
}

#[test]
fn kit_transforms_the_site_key(rt: HostRuntime) -> Result<(), Fail> {
    let key = [5; 32];
    for site_key in [&key[..16], &key[..24], &key] {
        let keys = transformed(&rt, site_key)?;
        let text = wrapped(&rt, site_key)?;
        assert_eq!(rt; answer(&rt, &text, HEADER, 272, 96)?, keys);
        assert_eq!(rt; answer(&rt, &text, HEADER, 300, 100)?, keys);
    }
    Ok(())
}

#[test]
fn kit_refuses(rt: HostRuntime) -> Result<(), Fail> {
    let sixteen = wrapped(&rt, &[5; 16])?;
    let twenty = wrapped(&rt, &[5; 20])?;
    let longest = wrapped(&rt, &[5; 256])?;
    let short = [0; 31];
    for (text, header, scratch_room, room, refusal) in [
        (twenty.as_slice(), HEADER, 272, 96, Refusal::KeyLength),
        (&longest, HEADER, 272, 96, Refusal::KeyLength),
        (&short, HEADER, 272, 96, Refusal::WrappedLength),
        (&short, HEADER, 0, 0, Refusal::WrappedLength),
        (&sixteen, HEADER, 272, 95, Refusal::ShortOutput),
        (&sixteen, HEADER, 271, 96, Refusal::ShortOutput),
        (&twenty, [8; 16], 0, 96, Refusal::ShortOutput),
        (&sixteen, [8; 16], 272, 96, Refusal::HeaderDiffers),
        (&twenty, [8; 16], 272, 96, Refusal::HeaderDiffers),
    ] {
        assert_eq!(rt;
            answer(&rt, text, header, scratch_room, room),
            Err(refusal),
            "scratch of {scratch_room}, output of {room}"
        );
    }
    assert_eq!(rt; Refusal::KeyLength.number(), 34);
    assert_eq!(rt; Refusal::WrappedLength.number(), 51);
    assert_eq!(rt; Refusal::ShortOutput.number(), 31);
    assert_eq!(rt; Refusal::HeaderDiffers.number(), 52);
    Ok(())
}
