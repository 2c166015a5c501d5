// Lines of text on standard output.
ghost use Rattle.std.specs.Prelude.{◌<◌};

use faults::Fault;
use products::Code;
use std::io;

fn letters(rt: &impl Print, code: Code) -> io::Result<()> {
    rt.write_all(&[code.0, code.1])
}

// A space, and the number given or the refusal.
fn answer(rt: &impl Print, a: Result<u64, Fault>) -> io::Result<()> {
    match a {
        Ok(n) => print!(rt; " {n}"),
        Err(fault) => print!(rt; " refused {}", u32::from(fault)),
    }
}

// The rest of a line after its code: price, value, tick value, bracket.
fn answers(rt: &impl Print, code: Code, price: u32) -> io::Result<()> {
    print!(rt; " {price}")?;
    answer(rt, pricing::value(code, price))?;
    answer(rt, pricing::tick_value(code, price))?;
    answer(rt, pricing::bracket(code, price))?;
    println!(rt)
}

// A line for each of the prices from first on, a step apart, up to last.
pub(crate) fn at_prices(
    rt: &impl Print,
    code: Code,
    first: u32,
    last: u32,
    step: u32,
) -> io::Result<()>
    requires { 0 < step }
{
    let last = u64::from(last);
    let mut price = u64::from(first);
    // No `step_by`, which passes over each number between two prices: up to four billion of them.
    while price <= last {
        letters(rt, code)?;
        answers(rt, code, price as u32)?;
        price += u64::from(step);
    }
    Ok(())
}

// A line whose code is written as two numbers, since it need not be text.
pub(crate) fn of_bytes(rt: &impl Print, code: Code, price: u32) -> io::Result<()> {
    let Code(first, second) = code;
    print!(rt; "{first} {second}")?;
    answers(rt, code, price)
}

// A digest of answers for one code. The label says at which prices.
pub(crate) fn digest(rt: &impl Print, code: Code, label: &str, h: u64) -> io::Result<()> {
    letters(rt, code)?;
    println!(rt; " {label} {h}")
}

// A digest of the answers for all codes at a price.
pub(crate) fn all_codes(rt: &impl Print, price: u32, h: u64) -> io::Result<()> {
    println!(rt; "all codes {price} digest {h}")
}
