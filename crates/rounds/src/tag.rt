// Tag texts: what stands at a door.
ghost use Rattle.std.specs.Prelude.{◌≡◌, ℕ, ◌++◌, length, if◌then◌else◌, Some, None, nat_eq};
ghost use Rattle.blocks.specs.Written.{written};
ghost use Rattle.rounds.specs.Tags.{tag_head, issued, issue_answer};
ghost use Rattle.rounds.specs.Checked.{tag_parts, parts_answer, tag_answer, TagExact};

use blocks::octets::Number;
use blocks::{Block, Refusal};
use modes::checksum::checksum;

// The letters that a tag text begins with.
const LETTERS: [u8; 4] = *b"BTAG";

// The octets of a tag text, the last eight of them the checksum of the others.
const SIZE: usize = 24;

// What a genuine tag says: its door's checkpoint, and its own serial.
#[derive(Clone, Copy, Debug, PartialEq, Eq)]
pub struct Tag {
    pub checkpoint: u16,
    pub serial: u32,
}

// Writes the tag text of a checkpoint of a site. The numbers stand side by side, as the C call has them.
pub fn issue<B: Block>(
    block: &mut B,
    site: u16,
    checkpoint: u16,
    serial: u32,
    out: &mut [u8],
) -> Result<usize, Refusal>
    ensures answer { result ≡ issue_answer site checkpoint (length out.old) }
    ensures text { out.new ≡ written result (issued (B.meaning block.old).image site checkpoint serial) out.old }
    ensures same { B.meaning block.new ≡ B.meaning block.old }
{
    if site == 0 || checkpoint == 0 {
        return Err(Refusal::ZeroNumber);
    }
    if out.len() < SIZE {
        return Err(Refusal::ShortOutput);
    }
    let front = head(site, checkpoint, serial);
    let sum = checksum(block, &front)?;
    let (text, rest) = out.split_at_mut(16);
    text.copy_from_slice(&front);
    rest[..8].copy_from_slice(&sum);
    Ok(SIZE)
}

// The octets before the checksum.
fn head(site: u16, checkpoint: u16, serial: u32) -> [u8; 16]
    ensures { result ≡ tag_head site checkpoint serial }
{
    let [l0, l1, l2, l3] = LETTERS;
    let [s0, s1] = site.field();
    let [c0, c1] = checkpoint.field();
    let [n0, n1, n2, n3] = serial.field();
    [l0, l1, l2, l3, s0, s1, c0, c1, n0, n1, n2, n3, 0, 0, 0, 0]
}

// A tag text taken apart.
#[derive(Drop)]
struct Parts {
    letters: [u8; 4],
    site: u16,
    checkpoint: u16,
    serial: u32,
    reserved: u32,
}

// Reads a tag text against a site and a block.
pub fn check<B: Block>(block: &mut B, site: u16, text: &[u8]) -> Result<Tag, Refusal>
    ensures answer { result ≡ tag_answer (B.meaning block.old).image site text.now }
    ensures exact { TagExact (B.meaning block.old).image site text.now result }
    ensures same { B.meaning block.new ≡ B.meaning block.old }
{
    let Some(parts) = take_apart(text) else {
        return Err(Refusal::TagLength);
    };
    let sum = checksum(block, &text[0..16])?;
    judge(site, text[16..24] == sum[..], parts)
}

// The fields of a text of 24 octets.
fn take_apart(text: &[u8]) -> Option<Parts>
    ensures { result ≡ (if nat_eq (length text.now) 24 then Some (tag_parts text.now) else None) }
{
    let [
        l0,
        l1,
        l2,
        l3,
        s0,
        s1,
        c0,
        c1,
        n0,
        n1,
        n2,
        n3,
        z0,
        z1,
        z2,
        z3,
        ..
    ] = text.as_array::<SIZE>()?;
    Some(Parts {
        letters: [*l0, *l1, *l2, *l3],
        site: u16::number(&[*s0, *s1]),
        checkpoint: u16::number(&[*c0, *c1]),
        serial: u32::number(&[*n0, *n1, *n2, *n3]),
        reserved: u32::number(&[*z0, *z1, *z2, *z3]),
    })
}

// The first rule that the parts break, or the tag; `summed` tells whether the checksum is theirs. A `Result` in its place would only be
// matched here, since the letters are tested before it.
fn judge(site: u16, summed: bool, parts: Parts) -> Result<Tag, Refusal>
    ensures { result ≡ parts_answer site summed parts }
{
    if parts.letters != LETTERS {
        return Err(Refusal::TagLetters);
    }
    if !summed {
        return Err(Refusal::TagChecksum);
    }
    if parts.site == 0 || parts.checkpoint == 0 || parts.reserved != 0 {
        return Err(Refusal::TagFields);
    }
    if parts.site != site {
        return Err(Refusal::OtherSite);
    }
    Ok(Tag {
        checkpoint: parts.checkpoint,
        serial: parts.serial,
    })
}
