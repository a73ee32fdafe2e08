// What a report is sealed and opened with, and what the blocks do to it, one step each.
ghost use Rattle.std.specs.Prelude.{◌≡◌, ◌≤◌, length};
ghost use Rattle.blocks.specs.Octets.{longest};
ghost use Rattle.reports.specs.Sealing.{start_size, start_of, enciphered, deciphered, sum_of};

use crate::visit::{HEAD, Header, MOST_VISITS, VISIT};
use blocks::Block;
use modes::cbc::{cbc_decrypt, cbc_encrypt};
use modes::checksum::checksum;

// The octets of the start, and those of the checksum.
pub(crate) const START: usize = 16;

pub(crate) const SUM: usize = 8;

// The octets of the longest body.
pub(crate) const MOST_BODY: usize = HEAD + VISIT * MOST_VISITS;

// The seal block and the check block, lent by whoever owns them.
#[derive(Drop)]
pub struct Sealer<'a, S, C> {
    pub seal: &'a mut S,
    pub check: &'a mut C,
}

// The start of a report. This and what follows step one block each, and so borrow one field of a sealer, not the sealer.
pub(crate) fn start_of<S: Block>(seal: &mut S, header: Header) -> [u8; START]
    ensures answer { result ≡ start_of (S.meaning seal.old) header.wand header.number }
    ensures same { S.meaning seal.new ≡ S.meaning seal.old }
{
    seal.forward(header.seed())
}

// Enciphers a body.
#[tactic(auto, using(crate::proofs::Ciphers::all_written), unfolding(crate::specs::Sealing::enciphered))]
pub(crate) fn encipher<S: Block>(seal: &mut S, start: [u8; START], body: &[u8], out: &mut [u8])
    requires long { (start_size ≤ length body.now) × (length body.now ≤ longest) }
    requires room { length out.old ≡ length body.now }
    ensures text { out.new ≡ enciphered (S.meaning seal.old) start body.now }
    ensures same { S.meaning seal.new ≡ S.meaning seal.old }
{
    cbc_encrypt(seal, start, body, out).unwrap();
}

// Deciphers a body. The two ways stay two functions, since the calls below and the definitions above are two.
#[tactic(auto, using(crate::proofs::Ciphers::all_written), unfolding(crate::specs::Sealing::deciphered))]
pub(crate) fn decipher<S: Block>(seal: &mut S, start: [u8; START], text: &[u8], out: &mut [u8])
    requires long { (start_size ≤ length text.now) × (length text.now ≤ longest) }
    requires room { length out.old ≡ length text.now }
    ensures text { out.new ≡ deciphered (S.meaning seal.old) start text.now }
    ensures same { S.meaning seal.new ≡ S.meaning seal.old }
{
    cbc_decrypt(seal, start, text, out).unwrap();
}

// The checksum of a text.
pub(crate) fn sum_of<C: Block>(check: &mut C, text: &[u8]) -> [u8; SUM]
    requires { length text.now ≤ longest }
    ensures answer { result ≡ sum_of (C.meaning check.old).image text.now }
    ensures same { C.meaning check.new ≡ C.meaning check.old }
{
    checksum(check, text).unwrap()
}
