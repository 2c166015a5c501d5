// The amounts of the positions and the sums of each currency's, from the marks' changes in value.
ghost use Rattle.std.specs.Prelude.{◌≡◌, ◌≤◌, nat_abs, ◌*ℤ◌, length};
ghost use Rattle.products.specs.declared.table.Currency.TheVariants as currency;
ghost use Rattle.numbers.specs.Folds.{Filled};
ghost use Rattle.dayfile.specs.Limits.{lots_limit};
ghost use Rattle.dayfile.specs.Records.{marks_in, positions_in};
ghost use Rattle.settlement.specs.SettlingSteps.{change_cap, Payable, Named, Bounded, currency_at, Addable, Adds, PaysBy, Pays};

use crate::cents::{Aud, Cents, Nzd};
use checks::Marks;
use dayfile::{DayFile, mark_at, mark_count, position_at, position_count};
use products::{Currency, currency_of};

// Lots times a change in value.
fn times(lots: i64, change: i64) -> i64
    requires { (nat_abs lots ≤ lots_limit) × (nat_abs change ≤ change_cap) }
    ensures { result ≡ lots *ℤ change }
{
    lots * change
}

// The sums of the amounts in Australian cents and of those in New Zealand cents.
#[derive(Clone, Copy, Debug, PartialEq, Eq)]
pub struct Sums {
    pub aud: Cents<Aud>,
    pub nzd: Cents<Nzd>,
}

// One amount more, in the cents of its own currency.
fn add(s: Sums, currency: Currency, x: i64) -> Sums
    requires { Addable s.aud.0 x × Addable s.nzd.0 x }
    ensures { Adds currency x s result }
{
    match currency {
        Currency::Aud => Sums {
            aud: s.aud.plus(Cents::of(x)),
            ..s
        },
        Currency::Nzd => Sums {
            nzd: s.nzd.plus(Cents::of(x)),
            ..s
        },
    }
}

// Each mark's currency.
fn currencies(marks: Marks<'_>) -> [Currency; DayFile::MAX_MARKS]
    ensures { Filled currency.Aud (currency_at (marks_in marks.entry.bytes.now)) (length (marks_in marks.entry.bytes.now)) result }
{
    // No heap, here and in the other arrays of this crate: a place for each mark that a file may have.
    let mut r = [Currency::Aud; DayFile::MAX_MARKS];
    for m in 0..mark_count(marks.bytes) {
        r[m] = currency_of(mark_at(marks.bytes, m).code);
    }
    r
}

// Writes the amounts, and sums those of each currency.
// The places stay a clause, here and in two callers: a relation of two arguments, which no type of one of them can hold.
fn pay_by(
    positions: &[u8],
    a: &[i64; DayFile::MAX_MARKS],
    currencies: &[Currency; DayFile::MAX_MARKS],
    amounts: &mut [i64],
) -> Sums
    requires { (Payable (positions_in positions.now) × Bounded a.now)
        × (length (positions_in positions.now) ≤ length amounts.old) }
    ensures { PaysBy (positions_in positions.now) a.now currencies.now
        result amounts.old amounts.new }
{
    let count = position_count(positions);
    let mut s = Sums {
        aud: Cents::of(0),
        nzd: Cents::of(0),
    };
    for i in 0..count {
        let p = position_at(positions, i);
        let m = p.mark;
        let x = times(p.lots, a[m]);
        amounts[i] = x;
        s = add(s, currencies[m], x);
    }
    s
}

// Writes the amounts of a file's positions, and sums those of each currency.
pub(crate) fn pay(
    marks: Marks<'_>,
    positions: &[u8],
    a: &[i64; DayFile::MAX_MARKS],
    amounts: &mut [i64],
) -> Sums
    requires { ((Payable (positions_in positions.now) × Named (marks_in marks.bytes.now) (positions_in positions.now)) × Bounded a.now)
        × (length (positions_in positions.now) ≤ length amounts.old) }
    ensures { Pays (marks_in marks.entry.bytes.now) (positions_in positions.now) a.now
        result amounts.old amounts.new }
{
    pay_by(positions, a, &currencies(marks), amounts)
}
