// The records of a day file, read from a section's bytes.
ghost use Rattle.std.specs.Prelude.{◌≡◌, ◌≤◌, ℕ, List, [], map, get_or, length};
ghost use Rattle.numbers.specs.Bytes.{records_of};
ghost use Rattle.dayfile.specs.Records.{record_size, mark_of, correction_of, raw_position_of, signed_position};
ghost use Rattle.dayfile.specs.Records.{marks_in, corrections_in, positions_in, raw_positions_in};
ghost use Rattle.dayfile.specs.Records.{mark_at, correction_at, position_at, raw_position_at};

use crate::bytes::u32_at;
use numbers::as_signed;
use products::Code;

#[derive(Clone, Copy, Debug, Default, PartialEq, Eq)]
pub struct Mark {
    pub code: Code,
    pub month: u8,
    pub year: u8,
    pub previous: u32,
    pub today: u32,
}

#[derive(Clone, Copy, Debug, Default, PartialEq, Eq)]
pub struct Correction {
    pub number: u32,
    pub mark: usize,
    pub price: u32,
}

#[derive(Clone, Copy, Debug, PartialEq, Eq)]
pub struct Position {
    pub account: u32,
    pub mark: usize,
    pub lots: i64,
}

// A position as its bytes have it: three numbers of 32 bits, the lots in two's complement. The compiler takes four such positions
// at a time.
#[derive(Clone, Copy, Debug, Default, PartialEq, Eq)]
pub struct RawPosition {
    pub account: u32,
    pub mark: u32,
    pub lots: u32,
}

// How many bytes a record has, of each kind.
const SIZE: usize = 12;

impl Mark {
    pub const SIZE: usize = SIZE;
}

impl Correction {
    pub const SIZE: usize = SIZE;
}

impl Position {
    pub const SIZE: usize = SIZE;
}

// What a section has: records that are read from their bytes.
trait Record {
    ghost of: { List ℕ → Self };

    // The record of its bytes.
    fn of(r: &[u8]) -> Self
        requires { record_size ≤ length r.now }
        ensures { result ≡ of r.now };

    // That of no bytes, all zero: what docs/STATEMENTS.md says of a record past the end, so that a reader answers no Option.
    fn zero() -> Self
        ensures { result ≡ of [] };
}

impl Record for Mark {
    ghost of = { mark_of };

    fn of(r: &[u8]) -> Mark {
        Mark {
            code: Code(r[0], r[1]),
            month: r[2],
            year: r[3],
            previous: u32_at(r, 4),
            today: u32_at(r, 8),
        }
    }

    fn zero() -> Mark {
        Mark::default()
    }
}

impl Record for Correction {
    ghost of = { correction_of };

    fn of(r: &[u8]) -> Correction {
        Correction {
            number: u32_at(r, 0),
            mark: u32_at(r, 4) as usize,
            price: u32_at(r, 8),
        }
    }

    fn zero() -> Correction {
        Correction::default()
    }
}

impl Record for RawPosition {
    ghost of = { raw_position_of };

    fn of(r: &[u8]) -> RawPosition {
        RawPosition {
            account: u32_at(r, 0),
            mark: u32_at(r, 4),
            lots: u32_at(r, 8),
        }
    }

    fn zero() -> RawPosition {
        RawPosition::default()
    }
}

impl From<RawPosition> for Position {
    ghost from_gives = { λ w p. p ≡ signed_position w };

    fn from(raw: RawPosition) -> Position {
        Position {
            account: raw.account,
            mark: raw.mark as usize,
            lots: as_signed(raw.lots),
        }
    }
}

// How many records a section has.
fn count<R: Record>(s: &[u8]) -> usize
    ensures { result ≡ length (map R.of (records_of record_size s.now)) }
{
    s.len() / SIZE
}

// The record with index i, all zero where there is none.
fn record_at<R: Record>(s: &[u8], i: usize) -> R
    ensures { result ≡ get_or (map R.of (records_of record_size s.now)) i (R.of []) }
{
    if i < s.len() / SIZE {
        R::of(&s[SIZE * i..SIZE * (i + 1)])
    } else {
        R::zero()
    }
}

// The mark with index i, all zero where there is none.
pub fn mark_at(s: &[u8], i: usize) -> Mark
    ensures { result ≡ mark_at (marks_in s.now) i }
{
    record_at(s, i)
}

// The correction with index i.
pub fn correction_at(s: &[u8], i: usize) -> Correction
    ensures { result ≡ correction_at (corrections_in s.now) i }
{
    record_at(s, i)
}

// The position with index i as its bytes have it.
pub fn raw_position_at(s: &[u8], i: usize) -> RawPosition
    ensures { result ≡ raw_position_at (raw_positions_in s.now) i }
{
    record_at(s, i)
}

// The position with index i.
pub fn position_at(s: &[u8], i: usize) -> Position
    ensures { result ≡ position_at (positions_in s.now) i }
{
    Position::from(raw_position_at(s, i))
}

pub fn mark_count(s: &[u8]) -> usize
    ensures { result ≡ length (marks_in s.now) }
{
    count::<Mark>(s)
}

pub fn correction_count(s: &[u8]) -> usize
    ensures { result ≡ length (corrections_in s.now) }
{
    count::<Correction>(s)
}

pub fn position_count(s: &[u8]) -> usize
    ensures { result ≡ length (positions_in s.now) }
{
    count::<RawPosition>(s)
}
