// Steps BelT many times over its own answers, so that a script can time it beside another implementation.
// Arguments: one, back, two or backtwo, and how many times; without them, a thousand times each way.
#![tactic(auto)]

use belt::BeltBlock;
use blocks::Block;
use hexadecimal::Hex;
use std::env;
use std::str::FromStr;
use thiserror::Error;

const KEY: [u8; 32] = *b"a key that is only for measuring";

// How the block is stepped.
#[derive(Clone, Copy)]
enum Way {
    One,
    Back,
    Two,
    BackTwo,
}

// No way has that name.
#[derive(Debug, Drop, Error)]
#[error("one, back, two or backtwo")]
struct UnknownWay;

impl FromStr for Way {
    type Err = UnknownWay;

    fn from_str(name: &str) -> Result<Way, UnknownWay> {
        match name {
            "one" => Ok(Way::One),
            "back" => Ok(Way::Back),
            "two" => Ok(Way::Two),
            "backtwo" => Ok(Way::BackTwo),
            _ => Err(UnknownWay),
        }
    }
}

fn main(rt: HostRuntime) -> anyhow::Result<()> {
    let mut args = env::args(&rt)?;
    let _program = args.next();
    if let (Some(way), Some(count)) = (args.next(), args.next()) {
        let count = count.as_str().parse()?;
        return show(&rt, way.as_str().parse()?, count);
    }
    for way in [Way::One, Way::Two, Way::Back, Way::BackTwo] {
        show(&rt, way, 1000)?;
    }
    Ok(())
}

// Prints where so many steps lead from blocks of zeros and ones.
fn show(rt: &HostRuntime, way: Way, count: u32) -> anyhow::Result<()> {
    let mut belt = BeltBlock::new(&KEY).unwrap();
    // A match: a way that holds its step would be a boxed closure, which no function may hand out.
    let pair = ([0; 16], [1; 16]);
    let (p, q) = match way {
        Way::One => (repeat(count, [0; 16], |p| belt.forward(p)), [0; 16]),
        Way::Back => (repeat(count, [0; 16], |p| belt.backward(p)), [0; 16]),
        Way::Two => repeat(count, pair, |(p, q)| belt.forward_two(p, q)),
        Way::BackTwo => repeat(count, pair, |(p, q)| belt.backward_two(p, q)),
    };
    println!(rt; "{} {}", Hex(&p), Hex(&q))?;
    Ok(())
}

// Takes a step so many times, each from where the last one led.
fn repeat<T, F: FnMut(T) -> T>(count: u32, start: T, mut step: F) -> T
    requires { (step : F) (at : T) → F.pre step at }
{
    (0..count).fold(start, |at, _| step(at))
}
