// The worked examples: each is run through its public call, and backwards where a call undoes that.
use crate::block::takes;
use crate::keys::transformed;
use crate::mode::{ecb_decrypt_from, ecb_encrypt_from, run};
use crate::text::{HEADER, KEY, array, octets};
use belt::BeltBlock;
use belt::hash::hash;
use belt::keys::expand;
use blocks::Refusal;
use modes::cbc::{cbc_decrypt, cbc_encrypt};
use modes::cfb::{cfb_decrypt, cfb_encrypt};
use modes::checksum::checksum;
use modes::ctr::ctr;
use modes::wrap::{unwrap, wrap};
use std::alloc::AllocGlobal;
use std::process::Abort;
use std::test::Fail;

const OTHER_KEY: [u8; 32] = [
    0x92, 0xBD, 0x9B, 0x1C, 0xE5, 0xD1, 0x41, 0x01, 0x54, 0x45, 0xFB, 0xC9, 0x5E, 0x4D, 0x0E, 0xF2,
    0x68, 0x20, 0x80, 0xAA, 0x22, 0x7D, 0x64, 0x2F, 0x26, 0x87, 0xF9, 0x34, 0x90, 0x40, 0x55, 0x11,
];

const START: [u8; 16] = [
    0xBE, 0x32, 0x97, 0x13, 0x43, 0xFC, 0x9A, 0x48, 0xA0, 0x2A, 0x88, 0x5F, 0x19, 0x4B, 0x09, 0xA1,
];

const OTHER_START: [u8; 16] = [
    0x7E, 0xCD, 0xA4, 0xD0, 0x15, 0x44, 0xAF, 0x8C, 0xA5, 0x84, 0x50, 0xBF, 0x66, 0xD2, 0xE8, 0x8A,
];

const OTHER_HEADER: [u8; 16] = [
    0xB5, 0xEF, 0x68, 0xD8, 0xE4, 0xA3, 0x9E, 0x56, 0x71, 0x53, 0xDE, 0x13, 0xD7, 0x22, 0x54, 0xEE,
];

// A text and its encryption, in digits. The start is a mode's, which ECB does not use, or the header of a wrapping.
struct Example {
    key: [u8; 32],
    start: [u8; 16],
    plain: &'static str,
    encrypted: &'static str,
}

const ECB: [Example; 4] = [
    Example {
        key: KEY,
        start: START,
        plain: "B194BAC80A08F53B366D008E584A5DE48504FA9D1BB6C7AC252E72C202FDCE0D5BE3D61217B96181FE6786AD716B890B",
        encrypted: "69CCA1C93557C9E3D66BC3E0FA88FA6E5F23102EF109710775017F73806DA9DC46FB2ED2CE771F26DCB5E5D1569F9AB0",
    },
    Example {
        key: KEY,
        start: START,
        plain: "B194BAC80A08F53B366D008E584A5DE48504FA9D1BB6C7AC252E72C202FDCE0D5BE3D61217B96181FE6786AD716B89",
        encrypted: "69CCA1C93557C9E3D66BC3E0FA88FA6E36F00CFED6D1CA1498C12798F4BEB2075F23102EF109710775017F73806DA9",
    },
    Example {
        key: OTHER_KEY,
        start: OTHER_START,
        plain: "0DC5300600CAB840B38448E5E993F421E55A239F2AB5C5D5FDB6E81B40938E2A54120CA3E6E19C7AD750FC3531DAEAB7",
        encrypted: "E12BDC1AE28257EC703FCCF095EE8DF1C1AB76389FE678CAF7C6F860D5BB9C4FF33C657B637C306ADD4EA7799EB23D31",
    },
    Example {
        key: OTHER_KEY,
        start: OTHER_START,
        plain: "0DC5300600CAB840B38448E5E993F4215780A6E2B69EAFBB258726D7B6718523E55A239F",
        encrypted: "E12BDC1AE28257EC703FCCF095EE8DF1C1AB76389FE678CAF7C6F860D5BB9C4FF33C657B",
    },
];

const CBC: [Example; 4] = [
    Example {
        key: KEY,
        start: START,
        plain: "B194BAC80A08F53B366D008E584A5DE48504FA9D1BB6C7AC252E72C202FDCE0D5BE3D61217B96181FE6786AD716B890B",
        encrypted: "10116EFAE6AD58EE14852E11DA1B8A745CF2480E8D03F1C19492E53ED3A70F60657C1EE8C0E0AE5B58388BF8A68E3309",
    },
    Example {
        key: KEY,
        start: START,
        plain: "B194BAC80A08F53B366D008E584A5DE48504FA9D1BB6C7AC252E72C202FDCE0D5BE3D612",
        encrypted: "10116EFAE6AD58EE14852E11DA1B8A746A9BBADCAF73F968F875DEDC0A44F6B15CF2480E",
    },
    Example {
        key: OTHER_KEY,
        start: OTHER_START,
        plain: "730894D6158E17CC1600185A8F411CAB0471FF85C83792398D8924EBD57D03DB95B97A9B7907E4B020960455E46176F8",
        encrypted: "E12BDC1AE28257EC703FCCF095EE8DF1C1AB76389FE678CAF7C6F860D5BB9C4FF33C657B637C306ADD4EA7799EB23D31",
    },
    Example {
        key: OTHER_KEY,
        start: OTHER_START,
        plain: "730894D6158E17CC1600185A8F411CABB6AB7AF8541CF85755B8EA27239F08D2166646E4",
        encrypted: "E12BDC1AE28257EC703FCCF095EE8DF1C1AB76389FE678CAF7C6F860D5BB9C4FF33C657B",
    },
];

const CFB: [Example; 2] = [
    Example {
        key: KEY,
        start: START,
        plain: "B194BAC80A08F53B366D008E584A5DE48504FA9D1BB6C7AC252E72C202FDCE0D5BE3D61217B96181FE6786AD716B890B",
        encrypted: "C31E490A90EFA374626CC99E4B7B8540A6E48685464A5A06849C9CA769A1B0AE55C2CC5939303EC832DD2FE16C8E5A1B",
    },
    Example {
        key: OTHER_KEY,
        start: OTHER_START,
        plain: "FA9D107A86F375EE65CD1DB881224BD016AFF814938ED39B3361ABB0BF0851B652244EB06842DD4C94AA4500774E40BB",
        encrypted: "E12BDC1AE28257EC703FCCF095EE8DF1C1AB76389FE678CAF7C6F860D5BB9C4FF33C657B637C306ADD4EA7799EB23D31",
    },
];

const CTR: [Example; 1] = [Example {
    key: KEY,
    start: START,
    plain: "B194BAC80A08F53B366D008E584A5DE48504FA9D1BB6C7AC252E72C202FDCE0D5BE3D61217B96181FE6786AD716B890B",
    encrypted: "52C9AF96FF50F64435FC43DEF56BD797D5B5B1FF79FB41257AB9CDF6E63E81F8F00341473EAE409833622DE05213773A",
}];

const WRAPPING: [Example; 2] = [
    Example {
        key: KEY,
        start: HEADER,
        plain: "B194BAC80A08F53B366D008E584A5DE48504FA9D1BB6C7AC252E72C202FDCE0D",
        encrypted: "49A38EE108D6C742E52B774F00A6EF98B106CBD13EA4FB0680323051BC04DF76E487B055C69BCF541176169F1DC9F6C8",
    },
    Example {
        key: OTHER_KEY,
        start: OTHER_HEADER,
        plain: "92632EE0C21AD9E09A39343E5C07DAA4889B03F2E6847EB152EC99F7A4D9F154",
        encrypted: "E12BDC1AE28257EC703FCCF095EE8DF1C1AB76389FE678CAF7C6F860D5BB9C4FF33C657B637C306ADD4EA7799EB23D31",
    },
];

// Each example is encrypted as it says, and decrypted again.
fn both_ways<E, D>(
    rt: &(impl Abort + AllocGlobal),
    examples: &[Example],
    encrypt: E,
    decrypt: D,
) -> Result<(), Fail>
where
    E: Fn(&mut BeltBlock, [u8; 16], &[u8], &mut [u8]) -> Result<usize, Refusal>,
    D: Fn(&mut BeltBlock, [u8; 16], &[u8], &mut [u8]) -> Result<usize, Refusal>,
    requires encrypt { E.IsAlwaysCallable encrypt }
    requires decrypt { D.IsAlwaysCallable decrypt }
{
    for e in examples {
        let plain = octets(rt, e.plain)?;
        let encrypted = octets(rt, e.encrypted)?;
        let mut block = BeltBlock::new(&e.key)?;
        assert_eq!(rt;
            run(rt, &decrypt, &mut block, e.start, &encrypted, 48)?,
            plain
        );
        assert_eq!(rt;
            run(rt, &encrypt, &mut block, e.start, &plain, 48)?,
            encrypted
        );
    }
    Ok(())
}

fn modes(rt: &(impl Abort + AllocGlobal)) -> Result<(), Fail> {
    both_ways(rt, &ECB, ecb_encrypt_from, ecb_decrypt_from)?;
    both_ways(rt, &CBC, cbc_encrypt, cbc_decrypt)?;
    both_ways(rt, &CFB, cfb_encrypt, cfb_decrypt)?;
    both_ways(rt, &CTR, ctr, ctr)?;
    both_ways(rt, &WRAPPING, wrap, |block, header, text, out| {
        unwrap(block, header, text, &mut [7; 272], out)
    })
}

fn blocks(rt: &impl Abort) -> Result<(), Fail> {
    takes(
        rt,
        &mut BeltBlock::new(&KEY)?,
        array("B194BAC80A08F53B366D008E584A5DE4")?,
        array("69CCA1C93557C9E3D66BC3E0FA88FA6E")?,
    );
    takes(
        rt,
        &mut BeltBlock::new(&OTHER_KEY)?,
        array("0DC5300600CAB840B38448E5E993F421")?,
        array("E12BDC1AE28257EC703FCCF095EE8DF1")?,
    );
    Ok(())
}

fn checksums(rt: &(impl Abort + AllocGlobal)) -> Result<(), Fail> {
    for (message, digits) in [
        ("B194BAC80A08F53B366D008E58", "7260DA60138F96C9"),
        (
            "B194BAC80A08F53B366D008E584A5DE48504FA9D1BB6C7AC252E72C202FDCE0D5BE3D61217B96181FE6786AD716B890B",
            "2DAB59771B4B16D0",
        ),
    ] {
        let mut block = BeltBlock::new(&KEY)?;
        assert_eq!(rt;
            checksum(&mut block, &octets(rt, message)?),
            Ok(array(digits)?)
        );
    }
    Ok(())
}

fn hashes(rt: &(impl Abort + AllocGlobal)) -> Result<(), Fail> {
    for (message, digits) in [
        (
            "B194BAC80A08F53B366D008E58",
            "ABEF9725D4C5A83597A367D14494CC2542F20F659DDFECC961A3EC550CBA8C75",
        ),
        (
            "B194BAC80A08F53B366D008E584A5DE48504FA9D1BB6C7AC252E72C202FDCE0D",
            "749E4C3653AECE5E48DB4761227742EB6DBE13F4A80F7BEFF1A9CF8D10EE7786",
        ),
        (
            "B194BAC80A08F53B366D008E584A5DE48504FA9D1BB6C7AC252E72C202FDCE0D5BE3D61217B96181FE6786AD716B890B",
            "9D02EE446FB6A29FE5C982D4B13AF9D3E90861BC4CEF27CF306BFB0B174A154A",
        ),
    ] {
        assert_eq!(rt; hash(&octets(rt, message)?), Ok(array(digits)?));
    }
    Ok(())
}

fn keys(rt: &(impl Abort + AllocGlobal)) -> Result<(), Fail> {
    for (key, digits) in [
        (
            "E9DEE72C8F0C0FA62DDB49F46F739647",
            "E9DEE72C8F0C0FA62DDB49F46F739647E9DEE72C8F0C0FA62DDB49F46F739647",
        ),
        (
            "E9DEE72C8F0C0FA62DDB49F46F73964706075316ED247A37",
            "E9DEE72C8F0C0FA62DDB49F46F73964706075316ED247A374B09A17E8450BF66",
        ),
    ] {
        assert_eq!(rt; expand(&octets(rt, key)?), Ok(array(digits)?));
    }
    for digits in [
        "6BBBC2336670D31AB83DAA90D52C0541",
        "9A2532A18CBAF145398D5A95FEEA6C825B9C197156A00275",
        "76E166E6AB21256B6739397B672B879614B81CF05955FC3AB09343A745C48F77",
    ] {
        let key = octets(rt, digits)?;
        assert_eq!(rt; transformed(rt, &KEY, key.len(), 48), Ok(key));
    }
    Ok(())
}

#[test]
fn worked_examples(rt: HostRuntime) -> Result<(), Fail> {
    blocks(&rt)?;
    modes(&rt)?;
    checksums(&rt)?;
    hashes(&rt)?;
    keys(&rt)
}
