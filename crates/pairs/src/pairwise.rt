// The first record that repeats an earlier one, by looking at every pair.
ghost use Rattle.std.specs.Prelude.{◌≡◌, ℕ, ◌<◌};
ghost use Rattle.numbers.specs.Folds.{first, repeating};
ghost use Rattle.numbers.specs.Searches.{TellsSome};
ghost use Rattle.pairs.specs.Records.{same_in};

use crate::keys::Records;

// Whether some index below a number passes a test. All are asked, with no branch between them, so that the compiler takes several at a time.
fn some_where<F: Fn(usize) -> bool>(n: usize, test: F) -> bool
    requires { (i : ℕ) → i < n → F.pre test i }
    ensures { TellsSome (F.post test) n result }
{
    let mut some = false;
    for k in 0..n {
        some |= test(k);
    }
    some
}

// Whether record i has the key of an earlier one.
fn repeats(records: &Records<'_>, i: usize) -> bool
    requires { i < records.now.n }
    ensures { result ≡ repeating (same_in records.now) i }
{
    let x = records.key_at(i);
    some_where(i, |j| x == records.key_at(j))
}

// The first record that has the key of an earlier one. (A loop: a search by a closure asks that it may be called, and no crate passes on a
// function that asks anything.)
pub(crate) fn first_by_pairs(records: &Records<'_>) -> Option<usize>
    ensures { result ≡ first (repeating (same_in records.now)) records.now.n }
{
    for i in 0..records.n {
        if repeats(records, i) {
            return Some(i);
        }
    }
    None
}
