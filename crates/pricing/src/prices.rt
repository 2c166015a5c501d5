// Prices and yields.
ghost use Rattle.std.specs.Prelude.{◌≡◌, ◌≤◌};
ghost use Rattle.products.specs.Products.{price_limit};
ghost use Rattle.pricing.specs.Prices.{yield_at};

// The price of yield 0, in units of 0.0001.
const PAR: u64 = 1_000_000;

// The yield at a price, in units of 0.0001 per cent.
pub(crate) fn yield_at(p: u32) -> u64
    requires { p ≤ price_limit }
    ensures value { result ≡ yield_at p }
    ensures low { result ≤ 1000000 }
{
    PAR - u64::from(p)
}
