// The keys of a site, and the tags at its doors.
use crate::stop::Stop;
use belt::BeltBlock;
use blocks::Refusal;
use hexadecimal::Hex;
use modes::wrap::{SCRATCH, wrap};
use rounds::kit::{KIT, kit};
use rounds::tag::{check, issue};
use std::io;

// The site, and the header under which its key was wrapped.
const SITE: u16 = 1;

const HEADER: [u8; 16] = *b"site one, key 01";

#[inline(never)]
pub fn show(rt: &HostRuntime, belt: &mut BeltBlock, site_key: &[u8]) -> Result<(), Stop> {
    let mut room = [0; KIT];
    let keys = site_keys(belt, site_key, &mut room)?;
    let n = keys.len() / 3;
    let (tag_key, others) = keys.split_at(n);
    let (seal_key, check_key) = others.split_at(n);
    println!(rt; "site {SITE}")?;
    println!(rt; "  tag key   {}", Hex(tag_key))?;
    println!(rt; "  seal key  {}", Hex(seal_key))?;
    println!(rt; "  check key {}", Hex(check_key))?;
    show_tags(rt, &mut BeltBlock::new(tag_key)?)
}

// Wraps the site key as the key room does, and makes the kit of it as a wand's maker does: the tag, seal and check keys.
fn site_keys<'a>(
    belt: &mut BeltBlock,
    site_key: &[u8],
    room: &'a mut [u8; KIT],
) -> Result<&'a [u8], Refusal> {
    let mut wrapped = [0; SCRATCH];
    let size = wrap(belt, HEADER, site_key, &mut wrapped)?;
    let wrapped = &wrapped[..size];
    let size = kit(belt, HEADER, wrapped, SITE, &mut [0; SCRATCH], room)?;
    Ok(&room[..size])
}

// Issues a tag for two doors, and reads them as a wand does: genuine, of another site, and garbled.
fn show_tags(rt: &HostRuntime, belt: &mut BeltBlock) -> Result<(), Stop> {
    for checkpoint in [7, 12] {
        let mut tag = [0; 24];
        issue(belt, SITE, checkpoint, 1000, &mut tag)?;
        println!(rt; "  tag       {}", Hex(&tag))?;
        show_read(rt, belt, SITE, &tag)?;
        show_read(rt, belt, SITE + 1, &tag)?;
        tag[23] ^= 1;
        show_read(rt, belt, SITE, &tag)?;
    }
    Ok(())
}

// Prints what reading a tag at a site tells.
fn show_read(rt: &HostRuntime, belt: &mut BeltBlock, site: u16, text: &[u8]) -> io::Result<()> {
    match check(belt, site, text) {
        Ok(tag) => println!(rt;
            "            at site {site}: door {}, serial {}",
            tag.checkpoint, tag.serial
        ),
        Err(refusal) => println!(rt;
            "            at site {site}: refused with {}",
            refusal.number()
        ),
    }
}
