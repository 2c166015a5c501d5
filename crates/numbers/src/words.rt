// Numbers of 32 bits in two's complement.
ghost use Rattle.std.specs.Prelude.{◌≡◌};
ghost use Rattle.numbers.specs.Bytes as bytes;

// A u32 read in two's complement.
pub fn as_signed(u: u32) -> i64
    ensures { result ≡ bytes.signed u }
{
    i64::from(u.cast_signed())
}
