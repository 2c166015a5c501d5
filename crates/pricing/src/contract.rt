// The calls on one contract. Each answers for any code and any price.
ghost use Rattle.std.specs.Prelude.{◌≡◌, ◌≤◌, IfOk};
ghost use Rattle.products.specs.Products.{price_limit};
ghost use Rattle.pricing.specs.Calls.{Answer, said, at_price, value_of, tick_value_of, bracket_of};
ghost use Rattle.pricing.specs.Checking.{after};

use crate::listed::Listed;
use crate::values::two_at;
use faults::Fault;
use products::{Code, PRICE_LIMIT, off_tick};

// Checks 6 and 7 of a price.
pub(crate) fn check_price(tick: u32, p: u32) -> Result<(), Fault>
    ensures answer { (a : Answer) → after result a ≡ at_price tick p a }
    ensures low { IfOk result (λ _. p ≤ price_limit) }
{
    if PRICE_LIMIT < p {
        return Err(Fault::HighPrice);
    }
    if off_tick(p, tick) {
        return Err(Fault::OffTick);
    }
    Ok(())
}

// The value of one contract in cents.
pub fn value(code: Code, p: u32) -> Result<u64, Fault>
    ensures { said result ≡ value_of code p }
{
    Listed::of(code)?.value(p)
}

// The value one tick higher, minus the value.
pub fn tick_value(code: Code, p: u32) -> Result<u64, Fault>
    ensures { said result ≡ tick_value_of code p }
{
    let product = Listed::of(code)?;
    check_price(product.tick, p)?;
    let next = p + product.tick;
    if PRICE_LIMIT < next {
        return Err(Fault::NextPrice);
    }
    let [low, high] = two_at(product.terms, p, next);
    Ok(high - low)
}

// A bond's bracket, in units of 10^-8. Any other product is refused as unlisted.
pub fn bracket(code: Code, p: u32) -> Result<u64, Fault>
    ensures { said result ≡ bracket_of code p }
{
    Listed::of(code)?.bracket(p)
}
