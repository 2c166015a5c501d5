// The bond ladder: discount factors by rounded powers, in units of 10^-8. A factor is held in 32 bits and widened for
// arithmetic; a sum of factors has 64. `as` narrows a factor where it is proved to fit: `try_from` would test it again.
ghost use Rattle.std.specs.Prelude.{◌≡◌, ◌+◌, ◌*◌, ◌<◌, ◌≤◌, get_or};
ghost use Rattle.numbers.specs.Folds.{Filled};
ghost use Rattle.numbers.specs.Rounding.{nearest};
ghost use Rattle.products.specs.Products.{price_limit};
ghost use Rattle.pricing.specs.Ladder.{first_factor};
ghost use Rattle.pricing.specs.Value.{scale, bond_divisor};
ghost use Rattle.pricing.specs.Rungs.{rung_at, next_of, no_rung, bond_of, Low, Within};

use crate::prices::yield_at;
use crate::rounding::rounded;
use std::array::from_fn;

// One, in the units of the ladder.
const SCALE: u64 = 100_000_000;

// A yield of 200 per cent, which is 100 per cent for a half year.
const BASE: u64 = 2_000_000;

// V1: 2,000,000 over (2,000,000 + Y), rounded.
fn first_factor(p: u32) -> u32
    requires { p ≤ price_limit }
    ensures { result ≡ first_factor scale (bond_divisor p) }
{
    rounded(BASE * SCALE, BASE + yield_at(p)) as u32
}

// The step of the ladder: the factor after Vk, as its arithmetic has it, is Vk times V1 over SCALE, rounded.
fn next_factor(v: u32, first: u32) -> u64
    requires { v * first ≤ 1000000000000000000 }
    ensures { result ≡ nearest (v * first) scale }
{
    rounded(u64::from(v) * u64::from(first), SCALE)
}

// A ladder at one of its rungs: V1, Vk and V1 + .. + Vk.
#[derive(Clone, Copy, Debug, PartialEq, Eq)]
pub struct Rung {
    pub first: u32,
    pub v: u32,
    pub sum: u64,
}

// The first rung at a price.
pub(crate) fn start(p: u32) -> Rung
    requires { p ≤ price_limit }
    ensures { result ≡ rung_at p 1 }
{
    let first = first_factor(p);
    Rung {
        first,
        v: first,
        sum: u64::from(first),
    }
}

// The next rung. Its factor is written twice, to be held and to be added, so that no local of 64 bits holds it; the compiler
// works it once.
pub(crate) fn climb(l: Rung) -> Rung
    requires { Low l }
    ensures { result ≡ next_of l }
{
    Rung {
        first: l.first,
        v: next_factor(l.v, l.first) as u32,
        sum: l.sum + next_factor(l.v, l.first),
    }
}

// c times (V1 + .. + Vn) plus 100 times Vn.
pub(crate) fn bracket_of(coupon: u64, l: Rung) -> u64
    requires { (coupon ≤ 3) × Low l }
    ensures { result ≡ coupon * l.sum + 100 * l.v }
{
    coupon * l.sum + 100 * u64::from(l.v)
}

// The value of a bond in cents by its ladder's last rung: bracket times face over SCALE, rounded.
pub(crate) fn bond_of(face: u64, coupon: u64, last: Rung) -> u64
    requires { (face ≤ 100000) × (coupon ≤ 3) × Low last }
    ensures { result ≡ bond_of face coupon last }
{
    rounded(bracket_of(coupon, last) * face, SCALE)
}

// The last rung at each price. The ladders are climbed side by side, so that none waits for another.
pub(crate) fn ladders<const N: usize>(halves: u64, p: [u32; N]) -> [Rung; N]
    requires { (1 ≤ halves) × (halves ≤ 40) × Within N p }
    ensures { Filled no_rung (λ i. rung_at (get_or p.entry i 0) halves) N result }
{
    let mut l = from_fn(
        |i| -> Rung
            requires { (i < N) × (get_or p i 0 ≤ price_limit) }
            ensures { result ≡ rung_at (get_or p i 0) 1 }
        { start(p[i]) },
    );
    for _ in 1..halves {
        l = from_fn(
            |i| -> Rung
                requires { (i < N) × Low (get_or l i no_rung) }
                ensures { result ≡ next_of (get_or l i no_rung) }
            { climb(l[i]) },
        );
    }
    l
}
