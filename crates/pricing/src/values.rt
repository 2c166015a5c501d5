// The values of one contract in cents, by its terms, at prices within the limit. The formulas take the numbers that a match takes out of
// a listed product, so they ask for what its ghost field says of these.
ghost use Rattle.std.specs.Prelude.{◌≡◌, ◌<◌, ◌≤◌, [], ◌∷◌, get_or};
ghost use Rattle.numbers.specs.Folds.{Filled};
ghost use Rattle.products.specs.Products.{price_limit};
ghost use Rattle.pricing.specs.Value.{value_by};
ghost use Rattle.pricing.specs.Sizes.{Modest};
ghost use Rattle.pricing.specs.Rungs.{no_rung, bond_of, Low, Within};

use crate::ladder::{bond_of, ladders};
use crate::prices::yield_at;
use crate::rounding::rounded;
use products::Terms;
use std::array::from_fn;

// A yield of 100 per cent.
const HUNDRED_PERCENT: u64 = 1_000_000;

// Face times 365 over (365 + yield times days / 100).
pub(crate) fn bill_at(face: u64, days: u64, p: u32) -> u64
    requires { Modest (Terms.Bill face days) × (p ≤ price_limit) }
    ensures { result ≡ value_by (Terms.Bill face days) p }
{
    rounded(
        face * 100 * 365 * HUNDRED_PERCENT,
        365 * HUNDRED_PERCENT + days * yield_at(p),
    )
}

// The value at each price.
pub(crate) fn bonds_at<const N: usize>(face: u64, coupon: u64, halves: u64, p: [u32; N]) -> [u64; N]
    requires { Modest (Terms.Bond face coupon halves) × Within N p }
    ensures { Filled 0 (λ i. value_by (Terms.Bond face coupon halves) (get_or p.entry i 0)) N result }
{
    let last = ladders(halves, p);
    from_fn(
        |i| -> u64
            requires { (i < N) × (face ≤ 100000) × (coupon ≤ 3) × Low (get_or last i no_rung) }
            ensures { result ≡ bond_of face coupon (get_or last i no_rung) }
        { bond_of(face, coupon, last[i]) },
    )
}

pub(crate) fn cash_at(cents: u64, p: u32) -> u64
    requires { Modest (Terms.CashRate cents) × (p ≤ price_limit) }
    ensures { result ≡ value_by (Terms.CashRate cents) p }
{
    rounded(cents * u64::from(p), 100)
}

// The values at two prices.
pub(crate) fn two_at(t: Terms, p: u32, other: u32) -> [u64; 2]
    requires { Modest t × (p ≤ price_limit) × (other ≤ price_limit) }
    ensures { result ≡ value_by t p ∷ value_by t other ∷ [] }
{
    match t {
        Terms::Bill { face, days } => [bill_at(face, days, p), bill_at(face, days, other)],
        Terms::Bond {
            face,
            coupon,
            halves,
        } => bonds_at(face, coupon, halves, [p, other]),
        Terms::CashRate { cents } => [cash_at(cents, p), cash_at(cents, other)],
    }
}
