// Prints the answers of `pricing` for many codes and prices: lines to read, and digests of all answers.
// tests/sweep.py works out the same text by itself.
#![tactic(auto)]

mod digest;
mod lines;

ghost use Rattle.std.specs.Prelude.{◌<◌};

use products::Code;
use std::io;

// A product that is listed with the given tick: at every multiple of the tick, off the tick, and above the limit.
fn product(rt: &impl Print, code: Code, tick: u32) -> io::Result<()>
    requires { 0 < tick }
{
    lines::at_prices(rt, code, 0, 1_000_000, 50_000)?;
    lines::digest(
        rt,
        code,
        "digest",
        digest::at_prices(code, 0, 1_000_000, tick),
    )?;
    off_tick(rt, code)?;
    above_limit(rt, code)
}

// 37 has no factor in common with a tick, so its multiples leave every remainder.
fn off_tick(rt: &impl Print, code: Code) -> io::Result<()> {
    lines::at_prices(rt, code, 950_000, 950_100, 25)?;
    lines::digest(
        rt,
        code,
        "off tick digest",
        digest::at_prices(code, 0, 1_000_000, 37),
    )
}

// Prices on both sides of the limit, from there to the largest u32, and where a tick more would pass that one.
// Digests of every price just above the limit, and of multiples of 65,537, of which the largest u32 is one.
fn above_limit(rt: &impl Print, code: Code) -> io::Result<()> {
    lines::at_prices(rt, code, 999_900, 1_000_100, 25)?;
    lines::at_prices(rt, code, 1_000_001, u32::MAX, 2_146_983_647)?;
    lines::at_prices(rt, code, 4_294_967_200, u32::MAX, 25)?;
    lines::digest(
        rt,
        code,
        "just above digest",
        digest::at_prices(code, 1_000_001, 1_010_000, 1),
    )?;
    lines::digest(
        rt,
        code,
        "far above digest",
        digest::at_prices(code, 1_048_592, u32::MAX, 65_537),
    )
}

// A code that no product has: at an ordinary price, at 0, above the limit and off the tick.
fn unlisted(rt: &impl Print, code: Code) -> io::Result<()> {
    for price in [950_000, 0, 1_000_001, 950_025] {
        lines::of_bytes(rt, code, price)?;
    }
    Ok(())
}

fn products(rt: &impl Print) -> io::Result<()> {
    for (first, second) in [(b'I', b'R'), (b'B', b'B')] {
        product(rt, Code(first, second), 100)?;
    }
    for (first, second) in [(b'I', b'B'), (b'Y', b'T'), (b'X', b'T'), (b'X', b'X')] {
        product(rt, Code(first, second), 50)?;
    }
    Ok(())
}

// Lower case, letters swapped or taken from two codes, no letters, and letters with the highest bit set.
fn unlisted_codes(rt: &impl Print) -> io::Result<()> {
    for (first, second) in [
        (b'i', b'r'),
        (b'I', b'r'),
        (b'x', b'X'),
        (b'R', b'I'),
        (b'T', b'Y'),
        (b'B', b'I'),
        (b'I', b'T'),
        (b'Z', b'Z'),
        (0, 0),
        (b'I', 0),
        (b' ', b' '),
        (b' ', b'B'),
        (201, 210),
        (255, 255),
    ] {
        unlisted(rt, Code(first, second))?;
    }
    Ok(())
}

// All 65,536 codes, at an ordinary price, at 0, above the limit and off the tick.
fn every_code(rt: &impl Print) -> io::Result<()> {
    for price in [950_000, 0, 1_000_001, 950_025] {
        lines::all_codes(rt, price, digest::over_codes(price))?;
    }
    Ok(())
}

fn main(rt: HostRuntime) -> io::Result<()> {
    products(&rt)?;
    unlisted_codes(&rt)?;
    every_code(&rt)
}
