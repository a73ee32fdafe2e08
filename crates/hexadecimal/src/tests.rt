// Texts that are octets, and texts that are not.
use super::{Hex, decode, decode_array, parse};
use std::test::Fail;

#[test]
fn decode_reads_pairs(rt: HostRuntime) -> Result<(), Fail> {
    let alloc = rt.alloc();
    let Some(octets) = decode(alloc, b"00179AFF")? else {
        return Err(Fail::new("a text of pairs is refused"));
    };
    assert_eq!(rt; octets.as_slice(), [0x00, 0x17, 0x9A, 0xFF].as_slice());
    let text = format!(in alloc; "{}", Hex(octets.as_slice()))?;
    assert_eq!(rt; text.as_str(), "00179AFF");
    let Some(empty) = decode(alloc, b"")? else {
        return Err(Fail::new("an empty text is refused"));
    };
    assert!(rt; empty.is_empty());
    for text in [b"0/", b"0:", b"0@", b"0G", b"0f"] {
        assert!(rt; decode(alloc, text)?.is_none());
    }
    assert!(rt; decode(alloc, b"001")?.is_none());
    Ok(())
}

#[test]
fn decode_array_reads_so_many(rt: HostRuntime) {
    assert!(rt; decode_array(b"0A1B") == Some([0x0A, 0x1B]));
    assert!(rt; decode_array::<2>(b"0A1B2C").is_none());
    assert!(rt; decode_array::<2>(b"0A1").is_none());
    assert!(rt; decode_array::<2>(b"0A1g").is_none());
}

#[test]
fn parse_writes_in_front(rt: HostRuntime) {
    let mut out = [7; 3];
    assert!(rt; parse(b"0A1B", &mut out) == Some(2));
    assert_eq!(rt; out, [0x0A, 0x1B, 7]);
    assert!(rt; parse(b"0A1B", &mut out[..1]).is_none());
}
