// Wrapping and unwrapping over the BelT block: further examples, every length, refusals, and the scratch.
use crate::text::{HEADER, KEY, in_scratch, octets, written};
use belt::BeltBlock;
use blocks::Refusal;
use modes::wrap::{unwrap, wrap};
use std::alloc::AllocGlobal;
use std::array;
use std::process::Abort;
use std::test::Fail;

// A key text to take the first octets of.
fn sample() -> [u8; 256] {
    array::from_fn(|k| ((3 * k + 1) % 256) as u8)
}

// A key text, wrapped to an output of so many octets.
fn wraps(
    rt: &(impl Abort + AllocGlobal),
    block: &mut BeltBlock,
    key_text: &[u8],
    room: usize,
) -> Result<Vec<u8>, Refusal> {
    written(rt, room, |out| wrap(block, HEADER, key_text, out))
}

// A text, unwrapped in a scratch and to an output of so many octets.
fn unwraps(
    rt: &(impl Abort + AllocGlobal),
    block: &mut BeltBlock,
    text: &[u8],
    scratch_room: usize,
    room: usize,
) -> Result<Vec<u8>, Refusal> {
    written(rt, room, |out| {
        in_scratch(rt, scratch_room, |scratch| {
            unwrap(block, HEADER, text, scratch, out)
        })
    })
}

#[test]
fn wraps_of_odd_lengths(rt: HostRuntime) -> Result<(), Fail> {
    let mut block = BeltBlock::new(&KEY)?;
    let text = sample();
    for (key_text, digits) in [
        (
            &text[..16],
            "69D5840C1285B17C96430EECF5AAFE84244C9428F0D489352FBAE57BF5391747",
        ),
        (
            &text[..17],
            "F8B552797908526F135E1206122A358A61E3809434578A291A3B28758C18B183BF",
        ),
        (
            &text[..31],
            "CC7438A495EBA08D898D77B95B9106ECF3767CD00CEB611F4215F8584328D93596CB4E78E97ABEE7CDFABD97BB8006",
        ),
        (
            &text[..33],
            "2B7FBF3D0C0009FD0448E4AEB243C2499EC226FF53E68DFC2877CFFED07C01571121324880E5E980AC0883CAABF6EB8058",
        ),
    ] {
        assert_eq!(rt;
            wraps(&rt, &mut block, key_text, 288),
            Ok(octets(&rt, digits)?)
        );
    }
    Ok(())
}

// A wrapped text is 16 octets longer than its key text.
#[test]
fn every_length_comes_back(rt: HostRuntime) -> Result<(), Fail> {
    let mut block = BeltBlock::new(&KEY)?;
    let text = sample();
    for n in 16..257 {
        let wrapped = wraps(&rt, &mut block, &text[..n], 272)?;
        assert_eq!(rt; wrapped.len(), n + 16);
        assert_eq!(rt;
            unwraps(&rt, &mut block, &wrapped, 272, 256)?.as_slice(),
            &text[..n]
        );
    }
    Ok(())
}

#[test]
fn wrap_refuses_lengths(rt: HostRuntime) -> Result<(), Fail> {
    let mut block = BeltBlock::new(&KEY)?;
    let text = [1; 257];
    for key_text in [&text[..15], &[], &text] {
        let n = key_text.len();
        assert_eq!(rt;
            wraps(&rt, &mut block, key_text, 300),
            Err(Refusal::KeyTextLength),
            "{n} octets"
        );
    }
    assert_eq!(rt; Refusal::KeyTextLength.number(), 35);
    Ok(())
}

#[test]
fn wrap_refuses_a_short_output(rt: HostRuntime) -> Result<(), Fail> {
    let mut block = BeltBlock::new(&KEY)?;
    let text = [1; 256];
    assert_eq!(rt;
        wraps(&rt, &mut block, &text, 271),
        Err(Refusal::ShortOutput)
    );
    assert_eq!(rt;
        wraps(&rt, &mut block, &text[..16], 31),
        Err(Refusal::ShortOutput)
    );
    assert_eq!(rt;
        wraps(&rt, &mut block, &text[..15], 0),
        Err(Refusal::KeyTextLength)
    );
    Ok(())
}

#[test]
fn unwrap_refuses_lengths(rt: HostRuntime) -> Result<(), Fail> {
    let mut block = BeltBlock::new(&KEY)?;
    let text = [1; 273];
    assert_eq!(rt;
        unwraps(&rt, &mut block, &text[..31], 272, 272),
        Err(Refusal::WrappedLength)
    );
    assert_eq!(rt;
        unwraps(&rt, &mut block, &[], 272, 272),
        Err(Refusal::WrappedLength)
    );
    assert_eq!(rt;
        unwraps(&rt, &mut block, &text, 300, 272),
        Err(Refusal::WrappedLength)
    );
    assert_eq!(rt;
        unwraps(&rt, &mut block, &text, 1, 0),
        Err(Refusal::WrappedLength)
    );
    assert_eq!(rt; Refusal::WrappedLength.number(), 51);
    Ok(())
}

#[test]
fn unwrap_refuses_a_short_output(rt: HostRuntime) -> Result<(), Fail> {
    let mut block = BeltBlock::new(&KEY)?;
    let text = wraps(&rt, &mut block, &sample(), 272)?;
    assert_eq!(rt;
        unwraps(&rt, &mut block, &text, 272, 255),
        Err(Refusal::ShortOutput)
    );
    assert_eq!(rt;
        unwraps(&rt, &mut block, &text, 271, 272),
        Err(Refusal::ShortOutput)
    );
    let front = text.get(..32).expect(&rt, "a wrapped text");
    assert_eq!(rt;
        unwraps(&rt, &mut block, front, 272, 15),
        Err(Refusal::ShortOutput)
    );
    Ok(())
}

// A text with any one of its octets another is refused for its header.
#[test]
fn a_flipped_octet_is_refused(rt: HostRuntime) -> Result<(), Fail> {
    let mut block = BeltBlock::new(&KEY)?;
    let sample = sample();
    for key_text in [&sample[..16], &sample[..21], &sample] {
        let text = wraps(&rt, &mut block, key_text, 272)?;
        assert_eq!(rt; text.len(), key_text.len() + 16);
        for (k, octet) in text.iter().enumerate() {
            let mut flipped = text.clone()?;
            flipped[k] = octet ^ 1;
            assert_eq!(rt;
                unwraps(&rt, &mut block, &flipped, 272, 256),
                Err(Refusal::HeaderDiffers)
            );
        }
    }
    assert_eq!(rt; Refusal::HeaderDiffers.number(), 52);
    Ok(())
}

#[test]
fn every_scratch_is_zeroed(rt: HostRuntime) -> Result<(), Fail> {
    let mut block = BeltBlock::new(&KEY)?;
    let key_text = &sample()[..20];
    let text = wraps(&rt, &mut block, key_text, 272)?;
    assert_eq!(rt;
        unwraps(&rt, &mut block, &text, 0, 20),
        Err(Refusal::ShortOutput)
    );
    assert_eq!(rt;
        unwraps(&rt, &mut block, &text, 271, 20),
        Err(Refusal::ShortOutput)
    );
    assert_eq!(rt;
        unwraps(&rt, &mut block, &text, 272, 20)?.as_slice(),
        key_text
    );
    assert_eq!(rt;
        unwraps(&rt, &mut block, &text, 300, 20)?.as_slice(),
        key_text
    );
    Ok(())
}
