// Digests of long lists of answers.
ghost use Rattle.std.specs.Prelude.{◌<◌};

use digests::digest_with;
use faults::Fault;
use products::Code;

// The digest h with an answer after it: the number given and a 0, or the number of the refusal and a 1.
fn with_answer(h: u64, answer: Result<u64, Fault>) -> u64 {
    match answer {
        Ok(n) => digest_with(digest_with(h, n), 0),
        Err(fault) => digest_with(digest_with(h, u64::from(u32::from(fault))), 1),
    }
}

// The digest h with the three answers for a code at a price after it.
fn with_answers(h: u64, code: Code, price: u32) -> u64 {
    let with_value = with_answer(h, pricing::value(code, price));
    let with_tick_value = with_answer(with_value, pricing::tick_value(code, price));
    with_answer(with_tick_value, pricing::bracket(code, price))
}

// The digest of a code's answers at the prices from first on, a step apart, up to last.
pub(crate) fn at_prices(code: Code, first: u32, last: u32, step: u32) -> u64
    requires { 0 < step }
{
    let last = u64::from(last);
    let mut h = 0;
    let mut price = u64::from(first);
    // No `step_by`, which passes over each number between two prices: up to four billion of them.
    while price <= last {
        h = with_answers(h, code, price as u32);
        price += u64::from(step);
    }
    h
}

// The digest of the answers for all codes at a price, from two zero bytes to two of 255.
pub(crate) fn over_codes(price: u32) -> u64 {
    let mut h = 0;
    for first in 0..=u8::MAX {
        for second in 0..=u8::MAX {
            h = with_answers(h, Code(first, second), price);
        }
    }
    h
}
