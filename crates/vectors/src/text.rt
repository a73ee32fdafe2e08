// Octets written as hexadecimal digits in the tests, a key and a header that many take, and what calls write.
use blocks::Refusal;
use std::alloc::AllocGlobal;
use std::process::Abort;
use std::test::Fail;

pub const KEY: [u8; 32] = [
    0xE9, 0xDE, 0xE7, 0x2C, 0x8F, 0x0C, 0x0F, 0xA6, 0x2D, 0xDB, 0x49, 0xF4, 0x6F, 0x73, 0x96, 0x47,
    0x06, 0x07, 0x53, 0x16, 0xED, 0x24, 0x7A, 0x37, 0x39, 0xCB, 0xA3, 0x83, 0x03, 0xA9, 0x8B, 0xF6,
];

pub const HEADER: [u8; 16] = [
    0x5B, 0xE3, 0xD6, 0x12, 0x17, 0xB9, 0x61, 0x81, 0xFE, 0x67, 0x86, 0xAD, 0x71, 0x6B, 0x89, 0x0B,
];

// The octets that digits write.
pub fn octets(rt: &impl AllocGlobal, digits: &str) -> Result<Vec<u8>, Fail> {
    hexadecimal::decode(rt.alloc(), digits.as_bytes())?.ok_or_else(|| Fail::new(
        "the test's digits write no octets",
    ))
}

// The octets that digits write, where they write so many.
pub fn array<const N: usize>(digits: &str) -> Result<[u8; N], Fail> {
    hexadecimal::decode_array(digits.as_bytes()).ok_or_else(|| Fail::new(
        "the test's digits do not write that many octets",
    ))
}

// Whether every octet is x.
fn all(octets: &[u8], x: u8) -> bool {
    octets.iter().all(|octet| *octet == x)
}

// What a call writes to the front of an output of so many octets. Past that it leaves the output as it was, and all of it where it refuses.
pub fn written<F: FnOnce(&mut [u8]) -> Result<usize, Refusal>>(
    rt: &(impl Abort + AllocGlobal),
    room: usize,
    call: F,
) -> Result<Vec<u8>, Refusal>
    requires { F.IsAlwaysCallable call }
{
    let mut out = vec![in rt.alloc(); 85; room].expect(rt, "memory");
    let answer = call(&mut out);
    let size = answer.unwrap_or(0);
    assert!(rt; size <= out.len() && all(&out[size..], 85));
    out.truncate(size);
    answer.map(|_| out)
}

// What a call answers in a scratch of so many octets, which it leaves as zeros.
pub fn in_scratch<F: FnOnce(&mut [u8]) -> Result<usize, Refusal>>(
    rt: &(impl Abort + AllocGlobal),
    room: usize,
    call: F,
) -> Result<usize, Refusal>
    requires { F.IsAlwaysCallable call }
{
    let mut scratch = vec![in rt.alloc(); 7; room].expect(rt, "memory");
    let answer = call(&mut scratch);
    assert!(rt; all(&scratch, 0));
    answer
}
