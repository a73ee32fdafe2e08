// The face for the radio firmware: C functions on numbers and octets over the BelT block. Each answers the refusal's number, or zero.
// C wants a name, plain parameters and a number of each call, so each is a function of its own. A slice is a pointer and a length in C.
// The crate is a static library, which exports them under their names; include/muchqawi.h says what each function takes and the caller's
// duties.
#![tactic(auto)]

ghost use Rattle.std.specs.Prelude.{◌≡◌, ℕ, ◌-◌, List, length, take, replicate, if◌then◌else◌, Ok, Err, Result, nat_le};
ghost use Rattle.blocks.specs.declared.answers.Refusal.{Refusal};
ghost use Rattle.blocks.specs.declared.answers.Refusal.TheVariants.{ShortOutput};
ghost use Rattle.blocks.specs.Written.{written};
ghost use Rattle.belt.specs.Hash.{hash_of};
ghost use Rattle.modes.specs.Outcome.{mode_answer};
ghost use Rattle.modes.specs.Modes.{ecb, cbc_encrypt, cbc_decrypt, cfb_encrypt, cfb_decrypt, ctr};
ghost use Rattle.modes.specs.Checksum.{checksum};
ghost use Rattle.modes.specs.Wrapping.{wrapped, key_found};
ghost use Rattle.modes.specs.WrapAnswers.{wrap_answer, unwrap_answer};
ghost use Rattle.rounds.specs.Tags.{issued, issue_answer};
ghost use Rattle.radio.specs.Keyed.{keyed, under, sixteen, digest_answer};
ghost use Rattle.radio.specs.Told.{Told, Gives};

use belt::BeltBlock;
use belt::hash::hash;
use blocks::answers::answer_number;
use blocks::octets::Number;
use blocks::{Block, Refusal};
use modes::cbc::{cbc_decrypt, cbc_encrypt};
use modes::cfb::{cfb_decrypt, cfb_encrypt};
use modes::checksum::checksum;
use modes::ctr::ctr;
use modes::ecb::{ecb_decrypt, ecb_encrypt};
use modes::wrap::{unwrap, wrap};
use rounds::tag::issue;

// A start or a header from its two numbers. (BelT's `joined`, which lays octets after octets too, requires a length and is private.)
#[tactic(auto, unfolding(crate::specs::Keyed::sixteen))]
fn octets(first: u64, second: u64) -> [u8; 16]
    ensures { result ≡ sixteen first second }
{
    let mut start = [0; 16];
    start[..8].copy_from_slice(&first.field());
    start[8..].copy_from_slice(&second.field());
    start
}

// Writes a digest to the front of an output.
fn put(digest: &[u8], out: &mut [u8]) -> Result<usize, Refusal>
    ensures answer { result ≡ (if nat_le (length digest.now) (length out.old) then Ok (length digest.now) else Err ShortOutput) }
    ensures text { out.new ≡ written result digest.now out.old }
{
    let n = digest.len();
    if out.len() < n {
        return Err(Refusal::ShortOutput);
    }
    out[..n].copy_from_slice(digest);
    Ok(n)
}

// Writes the checksum of a message to the front of an output.
fn put_checksum<B: Block>(block: &mut B, message: &[u8], out: &mut [u8]) -> Result<usize, Refusal>
    ensures answer { result ≡ digest_answer 8 (length message.now) (length out.old) }
    ensures text { out.new ≡ written result (checksum (B.meaning block.old).image message.now) out.old }
{
    put(&checksum(block, message)?, out)
}

// Writes the hash of a message to the front of an output.
fn put_hash(message: &[u8], out: &mut [u8]) -> Result<usize, Refusal>
    ensures answer { result ≡ digest_answer 32 (length message.now) (length out.old) }
    ensures text { out.new ≡ written result (hash_of message.now) out.old }
{
    put(&hash(message)?, out)
}

// Runs a call with the block of a key on an output, and says its answer by its number. Where the key makes no block, nothing runs.
fn under_key<F: FnOnce(&mut BeltBlock, &mut [u8]) -> Result<usize, Refusal>>(
    key: &[u8],
    out: &mut [u8],
    call: F,
) -> u8
    requires { F.IsAlwaysCallable call }
    ensures { (answer : Result ℕ Refusal) (text : List ℕ) → Gives F.FnOnce call key.now out.old answer text → Told (keyed key.now answer) text out.old result out.new }
{
    // No `and_then`: its closure would borrow the output, and of what an uncalled closure borrowed nothing is known.
    match BeltBlock::new(key) {
        Ok(mut block) => answer_number(&call(&mut block, out)),
        Err(refusal) => refusal.number(),
    }
}

// Writes a tag text.
#[unsafe(no_mangle)]
pub extern "C" fn muchqawi_issue(
    key: &[u8],
    site: u16,
    checkpoint: u16,
    serial: u32,
    out: &mut [u8],
) -> u8
    ensures { Told (keyed key.now (issue_answer site checkpoint (length out.old))) (issued (under key.now).image site checkpoint serial) out.old result out.new }
{
    under_key(key, out, |block, out| {
        issue(block, site, checkpoint, serial, out)
    })
}

// Encrypts by ECB.
#[unsafe(no_mangle)]
pub extern "C" fn muchqawi_ecb_encrypt(key: &[u8], message: &[u8], out: &mut [u8]) -> u8
    ensures { Told (keyed key.now (mode_answer 16 (length message.now) (length out.old))) (ecb (under key.now).image message.now) out.old result out.new }
{
    under_key(key, out, |block, out| ecb_encrypt(block, message, out))
}

// Decrypts by ECB.
#[unsafe(no_mangle)]
pub extern "C" fn muchqawi_ecb_decrypt(key: &[u8], message: &[u8], out: &mut [u8]) -> u8
    ensures { Told (keyed key.now (mode_answer 16 (length message.now) (length out.old))) (ecb (under key.now).preimage message.now) out.old result out.new }
{
    under_key(key, out, |block, out| ecb_decrypt(block, message, out))
}

// Encrypts by CBC.
#[unsafe(no_mangle)]
pub extern "C" fn muchqawi_cbc_encrypt(
    key: &[u8],
    first: u64,
    second: u64,
    message: &[u8],
    out: &mut [u8],
) -> u8
    ensures { Told (keyed key.now (mode_answer 16 (length message.now) (length out.old))) (cbc_encrypt (under key.now).image (sixteen first second) message.now) out.old result out.new }
{
    under_key(key, out, |block, out| {
        cbc_encrypt(block, octets(first, second), message, out)
    })
}

// Decrypts by CBC.
#[unsafe(no_mangle)]
pub extern "C" fn muchqawi_cbc_decrypt(
    key: &[u8],
    first: u64,
    second: u64,
    message: &[u8],
    out: &mut [u8],
) -> u8
    ensures { Told (keyed key.now (mode_answer 16 (length message.now) (length out.old))) (cbc_decrypt (under key.now).preimage (sixteen first second) message.now) out.old result out.new }
{
    under_key(key, out, |block, out| {
        cbc_decrypt(block, octets(first, second), message, out)
    })
}

// Encrypts by CFB.
#[unsafe(no_mangle)]
pub extern "C" fn muchqawi_cfb_encrypt(
    key: &[u8],
    first: u64,
    second: u64,
    message: &[u8],
    out: &mut [u8],
) -> u8
    ensures { Told (keyed key.now (mode_answer 0 (length message.now) (length out.old))) (cfb_encrypt (under key.now).image (sixteen first second) message.now) out.old result out.new }
{
    under_key(key, out, |block, out| {
        cfb_encrypt(block, octets(first, second), message, out)
    })
}

// Decrypts by CFB.
#[unsafe(no_mangle)]
pub extern "C" fn muchqawi_cfb_decrypt(
    key: &[u8],
    first: u64,
    second: u64,
    message: &[u8],
    out: &mut [u8],
) -> u8
    ensures { Told (keyed key.now (mode_answer 0 (length message.now) (length out.old))) (cfb_decrypt (under key.now).image (sixteen first second) message.now) out.old result out.new }
{
    under_key(key, out, |block, out| {
        cfb_decrypt(block, octets(first, second), message, out)
    })
}

// Encrypts by CTR.
#[unsafe(no_mangle)]
pub extern "C" fn muchqawi_ctr_encrypt(
    key: &[u8],
    first: u64,
    second: u64,
    message: &[u8],
    out: &mut [u8],
) -> u8
    ensures { Told (keyed key.now (mode_answer 0 (length message.now) (length out.old))) (ctr (under key.now).image (sixteen first second) message.now) out.old result out.new }
{
    under_key(key, out, |block, out| {
        ctr(block, octets(first, second), message, out)
    })
}

// Decrypts by CTR: the same as encrypting.
#[unsafe(no_mangle)]
pub extern "C" fn muchqawi_ctr_decrypt(
    key: &[u8],
    first: u64,
    second: u64,
    message: &[u8],
    out: &mut [u8],
) -> u8
    ensures { Told (keyed key.now (mode_answer 0 (length message.now) (length out.old))) (ctr (under key.now).image (sixteen first second) message.now) out.old result out.new }
{
    muchqawi_ctr_encrypt(key, first, second, message, out)
}

// Wraps a key text under a header.
#[unsafe(no_mangle)]
pub extern "C" fn muchqawi_wrap(
    key: &[u8],
    first: u64,
    second: u64,
    text: &[u8],
    out: &mut [u8],
) -> u8
    ensures { Told (keyed key.now (wrap_answer (length text.now) (length out.old))) (wrapped (under key.now).image (sixteen first second) text.now) out.old result out.new }
{
    under_key(key, out, |block, out| {
        wrap(block, octets(first, second), text, out)
    })
}

// Unwraps a text; the scratch, 272 octets or more, ends as zeros on every way out.
#[unsafe(no_mangle)]
pub extern "C" fn muchqawi_unwrap(
    key: &[u8],
    first: u64,
    second: u64,
    text: &[u8],
    scratch: &mut [u8],
    out: &mut [u8],
) -> u8
    ensures told { Told (keyed key.now (unwrap_answer (under key.now).image (sixteen first second) text.now (length scratch.old) (length out.old))) (key_found (under key.now).image text.now) out.old result out.new }
    ensures wiped { scratch.new ≡ replicate (length scratch.old) 0 }
{
    // No `under_key`, whose closure would borrow the scratch. `unwrap` zeroes it, and where the key makes no block nothing else would.
    match BeltBlock::new(key) {
        Ok(mut block) => {
            let answer = unwrap(&mut block, octets(first, second), text, scratch, out);
            answer_number(&answer)
        }
        Err(refusal) => {
            scratch.fill(0);
            refusal.number()
        }
    }
}

// Writes the checksum of a message, 8 octets.
#[unsafe(no_mangle)]
pub extern "C" fn muchqawi_checksum(key: &[u8], message: &[u8], out: &mut [u8]) -> u8
    ensures { Told (keyed key.now (digest_answer 8 (length message.now) (length out.old))) (checksum (under key.now).image message.now) out.old result out.new }
{
    under_key(key, out, |block, out| put_checksum(block, message, out))
}

// Writes the hash of a message, 32 octets.
#[unsafe(no_mangle)]
pub extern "C" fn muchqawi_hash(message: &[u8], out: &mut [u8]) -> u8
    ensures { Told (digest_answer 32 (length message.now) (length out.old)) (hash_of message.now) out.old result out.new }
{
    answer_number(&put_hash(message, out))
}
