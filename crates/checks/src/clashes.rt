// Corrections with one number: the first that clashes with an earlier one, and how many are resent.
ghost use Rattle.std.specs.Prelude.{◌≡◌, length};
ghost use Rattle.numbers.specs.Folds.{repeating, first};
ghost use Rattle.dayfile.specs.Records.{corrections_in};
ghost use Rattle.checks.specs.Corrections.{clashing, clash_pair, resent_of};
ghost use Rattle.checks.specs.Faults.{clashes_below, Lasts};

use crate::searches::first_where;
use dayfile::{Correction, DayFile, correction_at, correction_count};

// 11: two corrections agree in number but differ in mark or price.
fn clash(b: Correction, c: Correction) -> bool
    ensures { result ≡ clashing b c }
{
    (b.number == c.number) & ((b.mark != c.mark) | (b.price != c.price))
}

// Whether correction i clashes with correction k − 1; it does not where k is 0. (An entry of `pairs::earlier` is 0 or one more than an
// index, in two bytes.)
fn clashes_below(corrections: &[u8], i: usize, k: u16) -> bool
    ensures { result ≡ clashes_below (corrections_in corrections.now) i k }
{
    if k == 0 {
        return false;
    }
    clash(
        correction_at(corrections, i),
        correction_at(corrections, usize::from(k - 1)),
    )
}

// The first correction that clashes with an earlier one. Where none before it does, it is enough to look at the last with the same number.
pub(crate) fn first_clash(
    corrections: &[u8],
    numbers: &[u16; DayFile::MAX_CORRECTIONS],
) -> Option<usize>
    requires { Lasts (corrections_in corrections.now) numbers.now }
    ensures { result ≡ first (repeating (clash_pair (corrections_in corrections.now)))
        (length (corrections_in corrections.now)) }
{
    first_where(
        correction_count(corrections),
        |i| clashes_below(corrections, i, numbers[i]),
    )
}

// How many corrections bear a number that an earlier one bears.
pub(crate) fn resent_count(corrections: &[u8], numbers: &[u16; DayFile::MAX_CORRECTIONS]) -> usize
    requires { Lasts (corrections_in corrections.now) numbers.now }
    ensures { result ≡ resent_of (corrections_in corrections.now) }
{
    let mut t = 0;
    for i in 0..correction_count(corrections) {
        t += usize::from(numbers[i] != 0);
    }
    t
}
