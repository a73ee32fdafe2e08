// Tag texts: issuing, checking, and every refusal.
ghost use Rattle.std.specs.Prelude.{◌<◌};

use crate::text::written;
use belt::BeltBlock;
use blocks::{BenchBlock, Refusal};
use modes::checksum::checksum;
use rounds::tag::{Tag, check as check_tag, issue};
use std::alloc::AllocGlobal;
use std::process::Abort;
use std::test::Fail;

// Site 1, checkpoint 7, serial 1000, under the bench block of zero mask.
const TAG: [u8; 24] = [
    0x42, 0x54, 0x41, 0x47, 0x01, 0x00, 0x07, 0x00, 0xE8, 0x03, 0x00, 0x00, 0x00, 0x00, 0x00, 0x00,
    0x00, 0x00, 0x00, 0x00, 0x00, 0x00, 0x03, 0xE8,
];

// That tag with one octet changed.
fn changed(at: usize, octet: u8) -> [u8; 24]
    requires { at < 24 }
{
    let mut text = TAG;
    text[at] = octet;
    text
}

// The same change with the checksum made anew.
fn signed(at: usize, octet: u8) -> Result<[u8; 24], Refusal>
    requires { at < 24 }
{
    let mut text = changed(at, octet);
    let sum = checksum(&mut BenchBlock::new([0; 16]), &text[..16])?;
    text[16..].copy_from_slice(&sum);
    Ok(text)
}

// What checking answers under the bench block of zero mask.
fn checked(site: u16, text: &[u8]) -> Result<Tag, Refusal> {
    check_tag(&mut BenchBlock::new([0; 16]), site, text)
}

// A tag of serial 1000 in an output of so many octets, under the bench block of zero mask.
fn issued(
    rt: &(impl Abort + AllocGlobal),
    site: u16,
    checkpoint: u16,
    room: usize,
) -> Result<Vec<u8>, Refusal> {
    let mut bench = BenchBlock::new([0; 16]);
    written(
        rt,
        room,
        |out| issue(&mut bench, site, checkpoint, 1000, out),
    )
}

#[test]
fn issued_tags_are_accepted(rt: HostRuntime) -> Result<(), Fail> {
    assert_eq!(rt; issued(&rt, 1, 7, 26)?.as_slice(), TAG.as_slice());
    let mut belt = BeltBlock::new(&[9; 24])?;
    for (site, checkpoint, serial) in [
        (1, 1, 0),
        (65535, 65535, 4294967295),
        (258, 772, 84281096),
    ] {
        let mut text = [0; 24];
        assert_eq!(rt;
            issue(&mut belt, site, checkpoint, serial, &mut text),
            Ok(24)
        );
        assert_eq!(rt;
            check_tag(&mut belt, site, &text),
            Ok(Tag { checkpoint, serial })
        );
    }
    Ok(())
}

#[test]
fn issuing_is_refused(rt: HostRuntime) {
    assert_eq!(rt; issued(&rt, 0, 7, 24), Err(Refusal::ZeroNumber));
    assert_eq!(rt; issued(&rt, 1, 0, 24), Err(Refusal::ZeroNumber));
    assert_eq!(rt; issued(&rt, 0, 0, 3), Err(Refusal::ZeroNumber));
    assert_eq!(rt; issued(&rt, 1, 7, 23), Err(Refusal::ShortOutput));
}

#[test]
fn changed_tags_are_refused(rt: HostRuntime) -> Result<(), Fail> {
    assert_eq!(rt;
        checked(1, &changed(23, 0xE8)),
        Ok(Tag {
            checkpoint: 7,
            serial: 1000
        })
    );
    assert_eq!(rt; checked(1, &changed(23, 0xE9)), Err(Refusal::TagChecksum));
    assert_eq!(rt; checked(1, &changed(0, 0x43)), Err(Refusal::TagLetters));
    assert_eq!(rt; checked(1, &changed(3, 0)), Err(Refusal::TagLetters));
    assert_eq!(rt; checked(1, &changed(8, 0)), Err(Refusal::TagChecksum));
    assert_eq!(rt; checked(1, &signed(4, 2)?), Err(Refusal::OtherSite));
    assert_eq!(rt; checked(1, &signed(4, 0)?), Err(Refusal::TagFields));
    assert_eq!(rt; checked(1, &signed(6, 0)?), Err(Refusal::TagFields));
    assert_eq!(rt; checked(1, &signed(12, 1)?), Err(Refusal::TagFields));
    assert_eq!(rt; checked(1, &signed(15, 128)?), Err(Refusal::TagFields));
    assert_eq!(rt;
        checked(1, &signed(8, 0)?),
        Ok(Tag {
            checkpoint: 7,
            serial: 0x0300
        })
    );
    assert_eq!(rt; checked(1, &TAG[..23]), Err(Refusal::TagLength));
    assert_eq!(rt; checked(1, &[]), Err(Refusal::TagLength));
    assert_eq!(rt; checked(1, &[66; 25]), Err(Refusal::TagLength));
    assert_eq!(rt; checked(2, &TAG), Err(Refusal::OtherSite));
    assert_eq!(rt; checked(0, &TAG), Err(Refusal::OtherSite));
    assert_eq!(rt; Refusal::TagLength.number(), 11);
    assert_eq!(rt; Refusal::TagLetters.number(), 12);
    assert_eq!(rt; Refusal::TagChecksum.number(), 13);
    assert_eq!(rt; Refusal::TagFields.number(), 14);
    assert_eq!(rt; Refusal::OtherSite.number(), 15);
    Ok(())
}
