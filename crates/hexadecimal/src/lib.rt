// Octets in hexadecimal digits: reading and showing.
#![tactic(auto)]

ghost use Rattle.std.specs.Prelude.{◌≡◌, ◌+◌, ◌*◌, ◌/◌, ◌<◌, ◌==◌, ◌&&◌, true, false, length, IfOk, IfSome, is_some};
ghost use Rattle.hexadecimal.specs.Digits.{is_digit, digit_value, all_digits, octet_at};
ghost use Rattle.hexadecimal.specs.Parsed.{parse_answer, Parsed, is_octets, Writes};

use std::alloc::{AllocError, Global};
use std::fmt;

#[cfg(test)]
mod tests;

// Octets, shown as upper-case digits.
#[derive(Drop)]
pub struct Hex<'a>(pub &'a [u8]);

impl fmt::Display for Hex<'_> {
    fn fmt<W: fmt::Write>(&self, f: &mut fmt::Formatter<W>) -> fmt::Result {
        for octet in self.0 {
            write!(f, "{octet:02X}")?;
        }
        Ok(())
    }
}

// The octets that a text of digits writes, into the front of `out`; how many, or none where the text is not such or `out` is short.
// A length beside a buffer, for callers with no heap, whose texts have no fixed size.
pub fn parse(text: &[u8], out: &mut [u8]) -> Option<usize>
    ensures answer { result ≡ parse_answer text.now (length out.old) }
    ensures octets { Parsed result text.now out.old out.new }
{
    let n = text.len() / 2;
    if n <= out.len() && is_octets(text) {
        fill(text, &mut out[..n]);
        Some(n)
    } else {
        None
    }
}

// The octets that a text of digits writes; none where the text is not whole pairs of digits.
pub fn decode(alloc: Global, text: &[u8]) -> Result<Option<Vec<u8>>, AllocError>
    ensures found { IfOk result (λ read. is_some read ≡ is_octets text.now) }
    ensures refused { is_octets text.now ≡ false → result ≡ Ok None }
    ensures octets { IfOk result (λ read. IfSome read (λ octets. Writes text.now octets.items)) }
{
    if !is_octets(text) {
        return Ok(None);
    }
    let mut octets = vec![in alloc; 0; text.len() / 2]?;
    fill(text, octets.as_mut_slice());
    Ok(Some(octets))
}

// The N octets that a text of digits writes; none where it writes another number of them, or is not whole pairs of digits.
pub fn decode_array<const N: usize>(text: &[u8]) -> Option<[u8; N]>
    ensures found { is_some result ≡ (is_octets text.now && (length text.now / 2 == N)) }
    ensures octets { IfSome result (λ octets. Writes text.now octets) }
{
    if text.len() / 2 != N || !is_octets(text) {
        return None;
    }
    let mut octets = [0; N];
    fill(text, &mut octets);
    Some(octets)
}

// Whether a text is whole pairs of digits.
fn is_octets(text: &[u8]) -> bool
    ensures { result ≡ is_octets text.now }
{
    text.len() % 2 == 0 && all_digits(text)
}

// A `for`, with the test and the value of a digit as two functions: by `iter().all` and a `match` that answers an `Option`, reading a text takes
// five times as long, since it is compiled to no steps on many octets at once.
fn all_digits(text: &[u8]) -> bool
    ensures { result ≡ all_digits text.now }
{
    for c in text {
        if !is_digit(*c) {
            return false;
        }
    }
    true
}

fn is_digit(c: u8) -> bool
    ensures { result ≡ is_digit c }
{
    c >= b'0' && c <= b'9' || c >= b'A' && c <= b'F'
}

// Writes each octet from its pair of digits.
#[tactic(auto, using(crate::proofs::Each::pair_digits))]
fn fill(text: &[u8], out: &mut [u8])
    requires { (length out.old ≡ length text.now / 2) × (is_octets text.now ≡ true) }
    ensures { Writes text.now out.new }
{
    let (pairs, _) = text.as_chunks::<2>();
    // Written by place: after a write through `iter_mut().zip` nothing is known of `out`.
    for (i, pair) in pairs.iter().enumerate() {
        out[i] = octet(*pair);
    }
}

// The octet of a pair of digits.
fn octet(pair: [u8; 2]) -> u8
    requires { all_digits pair ≡ true }
    ensures { result ≡ octet_at pair 0 }
{
    let [high, low] = pair;
    16 * digit(high) + digit(low)
}

// What a digit stands for.
fn digit(c: u8) -> u8
    requires { is_digit c ≡ true }
    ensures value { result ≡ digit_value c }
    ensures bound { result < 16 }
{
    if c < b':' { c - b'0' } else { c - 55 }
}
