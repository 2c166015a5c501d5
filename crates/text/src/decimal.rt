// Decimal numbers.
ghost use Rattle.std.specs.Prelude.{◌≡◌, ◌+◌, ◌<◌, ◌≤◌, length, take, nat_abs, [], ◌∷◌, ◌++◌};
ghost use Rattle.text.specs.Decimal.{decimal, minus_sign};
ghost use Rattle.text.specs.Table.{digit_pairs, decimal_by, sign_of, signed_decimal_by};
ghost use Rattle.text.specs.Writing.{over, fitted, Wrote};

const PAIRS: [u8; 200] =
    *b"0001020304050607080910111213141516171819202122232425262728293031323334353637383940414243444546474849\
    5051525354555657585960616263646566676869707172737475767778798081828384858687888990919293949596979899";

// The pairs of digits from 00 to 99. A caller with many numbers to write makes them once, and lends them.
pub fn digit_pairs() -> [u8; 200]
    ensures { result ≡ digit_pairs }
{
    PAIRS
}

// How many digits a number has; 0 has one. No jump depends on the number.
fn width(n: u64) -> usize
    ensures { result ≡ length (decimal n) }
{
    n.max(1).ilog10() as usize + 1
}

// Writes the one or two digits of a number below 100, the last in the place i. A first digit 0 is overwritten, so that no jump
// depends on the number.
fn write_first(pairs: &[u8; 200], n: u64, i: usize, out: &mut [u8])
    requires { (n < 100) × (i + 1 ≡ length (decimal n)) × (i < length out.old) }
    ensures { out.new ≡ over (decimal_by pairs.now n) out.old }
{
    let p = 2 * n as usize;
    out[0] = pairs[p];
    out[i] = pairs[p + 1];
}

// Writes the k digits of a number, the last first, two at a time. The loop ends where the number does, and counts nothing.
fn write_digits(pairs: &[u8; 200], n: u64, k: usize, out: &mut [u8])
    requires { (k ≡ length (decimal n)) × (k ≤ length out.old) }
    ensures { Wrote (decimal_by pairs.now n) k out.old out.new }
{
    let mut rest = n;
    let mut i = k - 1;
    while 100 <= rest {
        let p = 2 * (rest % 100) as usize;
        let first = pairs[p];
        out[i] = pairs[p + 1];
        out[i - 1] = first;
        rest /= 100;
        i -= 2;
    }
    write_first(pairs, rest, i, out);
}

// Writes a number with the figures of a table. A caller with many numbers makes `digit_pairs` once, and lends them.
pub fn write_decimal(pairs: &[u8; 200], n: u64, out: &mut [u8]) -> usize
    ensures { Wrote (fitted (decimal_by pairs.now n) out.old) result out.old out.new }
{
    let k = width(n);
    if out.len() < k {
        return 0;
    }
    write_digits(pairs, n, k, out);
    k
}

// A number without its sign.
pub fn magnitude(n: i64) -> u64
    ensures { result ≡ nat_abs n }
{
    n.unsigned_abs()
}

// 1 for a negative number, else 0.
fn sign(n: i64) -> usize
    ensures { result ≡ length (sign_of n) }
{
    usize::from(n < 0)
}

// Writes a minus sign where s is 1, and the digits. The first digit overwrites a sign that should not stand, so that no jump depends on s.
fn write_with_sign(pairs: &[u8; 200], s: usize, size: u64, out: &mut [u8]) -> usize
    requires { s ≤ 1 }
    ensures { Wrote (fitted (take s (minus_sign ∷ []) ++ decimal_by pairs.now size) out.old)
        result out.old out.new }
{
    let k = width(size);
    if out.len() < s + k {
        return 0;
    }
    out[0] = b'-';
    write_digits(pairs, size, k, &mut out[s..]);
    s + k
}

// Writes a signed number with the figures of a table.
pub fn write_signed(pairs: &[u8; 200], n: i64, out: &mut [u8]) -> usize
    ensures { Wrote (fitted (signed_decimal_by pairs.now n) out.old) result out.old out.new }
{
    write_with_sign(pairs, sign(n), magnitude(n), out)
}
