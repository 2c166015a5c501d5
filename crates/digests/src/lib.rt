// A digest: one number for a long list of numbers. Another number in any one place makes another digest, as long as all are below PRIME.
#![tactic(auto)]

ghost use Rattle.std.specs.Prelude.{◌≡◌};
ghost use Rattle.digests.specs.Digest.{digest_with};

// The largest prime below 2^56, far above every value, tick value, bracket and amount.
const PRIME: u64 = 72_057_594_037_927_931;

// The digest h with the number n after it. The inner remainders keep the sum within 64 bits for any h and n.
pub fn digest_with(h: u64, n: u64) -> u64
    ensures { result ≡ digest_with h n }
{
    (h % PRIME * 131 + n % PRIME) % PRIME
}
