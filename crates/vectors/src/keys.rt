// The hash, the expansion and the transformation of keys: further examples and refusals.
use crate::text::{HEADER, KEY, array, octets, written};
use belt::hash::hash;
use belt::keys::expand;
use belt::transform::transform;
use blocks::Refusal;
use std::alloc::AllocGlobal;
use std::process::Abort;
use std::test::Fail;

#[test]
fn hashes_of_examples(rt: HostRuntime) -> Result<(), Fail> {
    let text: [u8; 48] = array(
        "B194BAC80A08F53B366D008E584A5DE48504FA9D1BB6C7AC252E72C202FDCE0D5BE3D61217B96181FE6786AD716B890B",
    )?;
    for (message, digits) in [
        (
            &text[..0],
            "EB6BA8BDE3821909B63E14764485530FD8E875A23834D41D6C100AC446828C7E",
        ),
        (
            &text[..1],
            "73863EC8BC3856C5AED66CDC83C3270C7418896397887EDA2CB1ABEB589BD3C9",
        ),
        (
            &text[..31],
            "4438C07C33EA27B07F8093C631BEFB52D7882110CBD55D705D1B01AAFE6E17AE",
        ),
        (
            &text[..33],
            "929FB1EC2562553E9F45989A54F7620A2EEEC6A36DDACEA5D8D768E3D7230164",
        ),
    ] {
        assert_eq!(rt; hash(message), Ok(array(digits)?));
    }
    Ok(())
}

#[test]
fn hash_of_the_longest_message(rt: HostRuntime) -> Result<(), Fail> {
    assert_eq!(rt;
        hash(&[0; 65_536]),
        Ok(array("17C8F47ADEF0EE90231D8E873625D5D05A5F91FB45F77DDAA13073E9A32793A3",)?)
    );
    Ok(())
}

#[test]
fn hash_of_a_longer_message_is_refused(rt: HostRuntime) {
    assert_eq!(rt; hash(&[0; 65_537]), Err(Refusal::LongMessage));
    assert_eq!(rt; Refusal::LongMessage.number(), 32);
}

#[test]
fn only_keys_are_expanded(rt: HostRuntime) {
    assert_eq!(rt; expand(&KEY), Ok(KEY));
    for n in 0..33 {
        if !matches!(n, 16 | 24 | 32) {
            assert_eq!(rt; expand(&KEY[..n]), Err(Refusal::KeyLength), "{n} octets");
        }
    }
}

// A key, transformed to a new key of so many octets in an output of so many.
pub fn transformed(
    rt: &(impl Abort + AllocGlobal),
    key: &[u8],
    new_length: usize,
    room: usize,
) -> Result<Vec<u8>, Refusal> {
    let level = [1, 0, 0, 0, 0, 0, 0, 0, 0, 0, 0, 0];
    written(rt, room, |out| {
        transform(key, level, HEADER, new_length, out)
    })
}

#[test]
fn transformations_of_examples(rt: HostRuntime) -> Result<(), Fail> {
    for (key, new_length, digits) in [
        (&KEY[..24], 16, "7FF05FCD94E1807C1C6B5261D0D81344"),
        (
            &KEY[..24],
            24,
            "4CD188D7BE1062201C77ED850699619B70CCE9ADDECC4B87",
        ),
        (&KEY[..16], 16, "D67F7A00AD71AE2944DEB53C8646D27A"),
    ] {
        assert_eq!(rt;
            transformed(&rt, key, new_length, 40),
            Ok(octets(&rt, digits)?)
        );
    }
    Ok(())
}

#[test]
fn transformation_refuses_lengths(rt: HostRuntime) {
    for (key, new_length, room) in [
        (&KEY[..16], 24, 40),
        (&KEY[..16], 32, 40),
        (&KEY[..24], 32, 40),
        (&KEY, 40, 40),
        (&KEY, 0, 40),
        (&KEY, 17, 40),
        (&KEY[..17], 16, 40),
        (&[], 0, 40),
        (&KEY[..31], 16, 0),
        (&KEY[..16], 32, 0),
    ] {
        assert_eq!(rt;
            transformed(&rt, key, new_length, room),
            Err(Refusal::KeyLength),
            "{new_length} octets in {room}"
        );
    }
    assert_eq!(rt; Refusal::KeyLength.number(), 34);
}

#[test]
fn transformation_refuses_a_short_output(rt: HostRuntime) {
    for (key, new_length, room) in [
        (&KEY[..], 32, 31),
        (&KEY, 24, 23),
        (&KEY[..24], 16, 15),
        (&KEY[..16], 16, 0),
    ] {
        assert_eq!(rt;
            transformed(&rt, key, new_length, room),
            Err(Refusal::ShortOutput),
            "{new_length} octets in {room}"
        );
    }
    assert_eq!(rt; Refusal::ShortOutput.number(), 31);
}
