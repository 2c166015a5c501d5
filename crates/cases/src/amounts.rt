// What a settlement left in the slice of amounts.
use digests::digest_with;

// What every place holds before a settlement. No position has this amount.
pub const UNTOUCHED: i64 = -7_777_777_777_777_777_777;

// The digest h with an amount after it: whether it is negative, and then the amount without its sign.
fn with_amount(h: u64, amount: i64) -> u64 {
    digest_with(digest_with(h, u64::from(amount < 0)), amount.unsigned_abs())
}

// The digest of the first n amounts.
pub(crate) fn digest(amounts: &[i64], n: usize) -> u64 {
    amounts
        .iter()
        .take(n)
        .fold(0, |h, amount| with_amount(h, *amount))
}

// Whether every place from n on is as it was before the settlement.
pub(crate) fn untouched(amounts: &[i64], n: usize) -> bool {
    amounts.iter().skip(n).all(|amount| *amount == UNTOUCHED)
}
