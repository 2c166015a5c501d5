// Rounding to the nearest whole number.
ghost use Rattle.std.specs.Prelude.{◌≡◌, ◌<◌, ◌≤◌};
ghost use Rattle.numbers.specs.Rounding.{nearest};

// x / d, a half going up.
pub(crate) fn rounded(x: u64, d: u64) -> u64
    requires { (0 < d) × (x ≤ 1000000000000000000) × (d ≤ 1000000000000000000) }
    ensures { result ≡ nearest x d }
{
    (x + d / 2) / d
}
