// The value of one contract where the call is not refused, else 0: at one price, or at several side by side.
ghost use Rattle.std.specs.Prelude.{◌≡◌, get_or};
ghost use Rattle.numbers.specs.Folds.{some, Filled};
ghost use Rattle.pricing.specs.Value.{value_by};
ghost use Rattle.pricing.specs.Calls.{given, at_price, lanes, or_zero, value_of, values_or_zero};
ghost use Rattle.pricing.specs.Checking.{fails_at};

use crate::contract::check_price;
use crate::listed::Listed;
use crate::values::bonds_at;
use products::{Code, Terms};
use std::array::from_fn;

// How many values are worked side by side.
pub const LANES: usize = 8;

// The value at a price, 0 where it fails check 6 or 7.
fn value_if_passed(product: Listed, p: u32) -> u64
    ensures { result ≡ or_zero (at_price product.tick p (given (value_by product.terms p))) }
{
    product.value(p).unwrap_or(0)
}

// The value of one contract in cents, 0 where the call is refused.
pub fn value_or_zero(code: Code, p: u32) -> u64
    ensures { result ≡ or_zero (value_of code p) }
{
    match Listed::of(code) {
        Ok(product) => value_if_passed(product, p),
        Err(_) => 0,
    }
}

// Whether a price fails check 6 or 7.
fn fails(tick: u32, p: u32) -> bool
    ensures { result ≡ fails_at tick p }
{
    check_price(tick, p).is_err()
}

// Whether some price does. (All are asked, with no branch between them, so that the compiler takes several at a time. A loop: a search by a
// closure asks that it may be called, and no crate passes on a function that asks anything.)
fn some_fails(tick: u32, p: [u32; LANES]) -> bool
    ensures { result ≡ some (λ i. fails_at tick (get_or p i 0)) lanes }
{
    let mut bad = false;
    for k in 0..LANES {
        bad |= fails(tick, p[k]);
    }
    bad
}

// The values at several prices: a bond's side by side, where none is turned away.
fn values_by(product: Listed, p: [u32; LANES]) -> [u64; LANES]
    ensures { Filled 0 (λ i. or_zero (at_price product.tick (get_or p i 0) (given (value_by product.terms (get_or p i 0))))) lanes result }
{
    match product.terms {
        Terms::Bond {
            face,
            coupon,
            halves,
        } if !some_fails(product.tick, p) => bonds_at(face, coupon, halves, p),
        _ => from_fn(|i| value_if_passed(product, p[i])),
    }
}

// The values of one contract at several prices, in cents, 0 where the call is refused.
pub fn values_or_zero(code: Code, p: [u32; LANES]) -> [u64; LANES]
    ensures { result ≡ values_or_zero code p }
{
    match Listed::of(code) {
        Ok(product) => values_by(product, p),
        Err(_) => [0; LANES],
    }
}
