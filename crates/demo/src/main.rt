// What stands so far, from beginning to end: a block, the modes, the keys of a site, and the tags at its doors.
// Arguments: a key of 16, 24 or 32 octets and a block, in upper-case hexadecimal digits; without them, a worked example.
#![tactic(auto)]

mod doors;
mod steps;
mod stop;
mod texts;

use anyhow::anyhow;
use belt::BeltBlock;
use blocks::Refusal;
use hexadecimal::Hex;
use std::{env, io};
use stop::Stop;

const EXAMPLE_KEY: &[u8] = b"E9DEE72C8F0C0FA62DDB49F46F73964706075316ED247A3739CBA38303A98BF6";

const EXAMPLE_BLOCK: &[u8] = b"B194BAC80A08F53B366D008E584A5DE4";

// The most octets that a key is read with.
const LONGEST: usize = 64;

fn main(rt: HostRuntime) -> anyhow::Result<()> {
    let mut args = env::args(&rt)?;
    let _program = args.next();
    match (args.next(), args.next()) {
        (Some(key), Some(block)) => read(&rt, key.as_bytes(), block.as_bytes()),
        (Some(_), None) => Err(anyhow!("give a key and a block, or nothing")),
        (None, _) => read(&rt, EXAMPLE_KEY, EXAMPLE_BLOCK),
    }
}

// Reads the key and the block, and shows them; a refusal on the way is printed here.
fn read(rt: &HostRuntime, key: &[u8], block: &[u8]) -> anyhow::Result<()> {
    let mut room = [0; LONGEST];
    let Some(size) = hexadecimal::parse(key, &mut room) else {
        return Err(no_key());
    };
    let Some(block) = hexadecimal::decode_array(block) else {
        return Err(no_block());
    };
    match show(rt, &room[..size], block) {
        Ok(()) => Ok(()),
        Err(Stop::Refused(refusal)) => refused(rt, refusal),
        Err(stop) => ended(stop),
    }
}

// The functions from here to `show_given` are not compiled in place, so that their room on the stack does not lie under what comes after them.
#[inline(never)]
fn no_key() -> anyhow::Error {
    anyhow!("a key is at most 64 octets, in pairs of upper-case hexadecimal digits")
}

#[inline(never)]
fn no_block() -> anyhow::Error {
    anyhow!("a block is 16 octets, in pairs of upper-case hexadecimal digits")
}

#[inline(never)]
fn ended(stop: Stop) -> anyhow::Result<()> {
    Err(stop.into())
}

#[inline(never)]
fn refused(rt: &HostRuntime, refusal: Refusal) -> anyhow::Result<()> {
    printed(show_refusal(rt, refusal))
}

#[inline(never)]
fn printed(answer: io::Result<()>) -> anyhow::Result<()> {
    Ok(answer?)
}

#[inline(never)]
fn show_refusal(rt: &HostRuntime, refusal: Refusal) -> io::Result<()> {
    println!(rt; "refused   {}", refusal.number())
}

#[inline(never)]
fn show_given(rt: &HostRuntime, key: &[u8], block: &[u8; 16]) -> io::Result<()> {
    println!(rt; "key       {}", Hex(key))?;
    println!(rt; "block     {}", Hex(block))
}

fn show(rt: &HostRuntime, key: &[u8], block: [u8; 16]) -> Result<(), Stop> {
    show_given(rt, key, &block)?;
    let mut belt = BeltBlock::new(key)?;
    steps::show(rt, &mut belt, block)?;
    texts::show(rt, &mut belt)?;
    doors::show(rt, &mut belt, key)
}
