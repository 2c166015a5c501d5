// A search among the indices below a number, by a test of each. It asks that the test may be called, so it is open to no other crate.
ghost use Rattle.std.specs.Prelude.{ℕ, ◌<◌};
ghost use Rattle.numbers.specs.Searches.{IsFirst};

// The first index that passes.
pub(crate) fn first_where<F: Fn(usize) -> bool>(n: usize, test: F) -> Option<usize>
    requires { (i : ℕ) → i < n → F.pre test i }
    ensures { IsFirst (F.post test) n result }
{
    for i in 0..n {
        if test(i) {
            return Some(i);
        }
    }
    None
}
