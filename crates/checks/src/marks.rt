// The checks over the marks: 4 to 8. One pass asks whether anything is wrong; only where something is, each check looks for the first mark
// that fails it. All look at a mark by the same function.
ghost use Rattle.std.specs.Prelude.{◌≡◌, ◌≤◌, length};
ghost use Rattle.numbers.specs.Folds.{first, repeating};
ghost use Rattle.numbers.specs.Checks.{decision_of, decision_for};
ghost use Rattle.dayfile.specs.Limits.{file_limits};
ghost use Rattle.dayfile.specs.Records.{marks_in};
ghost use Rattle.checks.specs.Table.{above_limit};
ghost use Rattle.checks.specs.Marks.{contract_pair, high_mark, mark_checks, mark_list_checks};
ghost use Rattle.faults.specs.Faults.{said};
ghost use Rattle.checks.specs.Faults.{mark_faults, faults_by, any_mark_fault, some_mark_fault, mark_decision, Ticks};

use crate::lists::Marks;
use crate::searches::first_where;
use dayfile::{DayFile, Mark, mark_at, mark_count};
use faults::{Fault, Refusal};
use numbers::Wanted;
use pairs::{Key, first_repeated};
use products::{PRICE_LIMIT, Product, has_month, lookup, off_tick};

const YEAR_LIMIT: u8 = 99;

// What is wrong with a mark by itself, and its product's tick, 1 where there is no product.
#[derive(Clone, Copy, Debug, PartialEq, Eq)]
pub struct MarkFaults {
    // 4: the code is not in the product table
    pub code: bool,
    // 5: the month is not one of the product's, or the year is above 99
    pub date: bool,
    // 6: a price is above the highest one
    pub high: bool,
    // 7: a price is not a multiple of the tick
    pub off: bool,
    pub tick: u32,
}

// Whether a price is above the highest one.
pub(crate) fn above_limit(p: u32) -> bool
    ensures { result ≡ above_limit p }
{
    p > PRICE_LIMIT
}

// 6: a price is above the highest one.
fn is_high(m: Mark) -> bool
    ensures { result ≡ high_mark m }
{
    above_limit(m.previous) | above_limit(m.today)
}

// The faults of a mark of a product.
fn faults_by(product: Product, m: Mark) -> MarkFaults
    ensures { result ≡ faults_by product m }
{
    MarkFaults {
        code: false,
        date: !has_month(product, m.month) | (m.year > YEAR_LIMIT),
        high: is_high(m),
        off: off_tick(m.previous, product.tick) | off_tick(m.today, product.tick),
        tick: product.tick,
    }
}

// The faults of any mark.
fn faults(m: Mark) -> MarkFaults
    ensures { result ≡ mark_faults m }
{
    match lookup(m.code) {
        Some(product) => faults_by(product, m),
        None => MarkFaults {
            code: true,
            date: true,
            high: is_high(m),
            off: false,
            tick: 1,
        },
    }
}

fn any_fault(faults: MarkFaults) -> bool
    ensures { result ≡ any_mark_fault faults }
{
    faults.code | faults.date | faults.high | faults.off
}

// Whether anything is wrong with some mark by itself. Writes the ticks of all marks.
pub(crate) fn some_fault(marks: Marks<'_>, ticks: &mut [u32; DayFile::MAX_MARKS]) -> bool
    ensures { (result ≡ some_mark_fault (marks_in marks.entry.bytes.now)) × Ticks (marks_in marks.entry.bytes.now) ticks.new }
{
    let mut bad = false;
    for i in 0..mark_count(marks.bytes) {
        let of_mark = faults(mark_at(marks.bytes, i));
        bad |= any_fault(of_mark);
        ticks[i] = of_mark.tick;
    }
    bad
}

// The first mark that repeats an earlier one. (One function for both sections would take size, key and pair, as `first_repeated` does.)
fn repeated(marks: &[u8]) -> Option<usize>
    requires { length (marks_in marks.now) ≤ file_limits.marks }
    ensures { result ≡ first (repeating (contract_pair (marks_in marks.now))) (length (marks_in marks.now)) }
{
    first_repeated(marks, Mark::SIZE, Key::Four)
}

// The checks that are looked at, in their order. The first mark that repeats an earlier one is known.
fn decide(marks: &[u8], repeated: Option<usize>, wanted: Wanted) -> Result<(), Refusal>
    ensures { said result ≡ mark_decision (marks_in marks.now) repeated wanted }
{
    let n = mark_count(marks);
    Fault::UnlistedCode.refuse(wanted, first_where(n, |i| faults(mark_at(marks, i)).code))?;
    Fault::Date.refuse(wanted, first_where(n, |i| faults(mark_at(marks, i)).date))?;
    Fault::HighPrice.refuse(wanted, first_where(n, |i| faults(mark_at(marks, i)).high))?;
    Fault::OffTick.refuse(wanted, first_where(n, |i| faults(mark_at(marks, i)).off))?;
    Fault::RepeatedMark.refuse(wanted, repeated)
}

// What the checks over marks within the file's limit decide, those that are looked at. Writes the ticks of all marks.
pub(crate) fn decide_marks(
    marks: Marks<'_>,
    ticks: &mut [u32; DayFile::MAX_MARKS],
    wanted: Wanted,
) -> Result<(), Refusal>
    ensures { (said result ≡ decision_for (mark_checks (marks_in marks.entry.bytes.now)) wanted)
        × Ticks (marks_in marks.entry.bytes.now) ticks.new }
{
    let bad = some_fault(marks, ticks);
    let repeated = repeated(marks.bytes);
    if bad | repeated.is_some() {
        return decide(marks.bytes, repeated, wanted);
    }
    Ok(())
}

// What the checks decide of a list of marks: 2 where a file may not have as many, then 4 to 8.
pub fn check_marks(marks: &[u8]) -> Result<(), Refusal>
    ensures { said result ≡ decision_of (mark_list_checks file_limits (marks_in marks.now)) }
{
    if mark_count(marks) > DayFile::MAX_MARKS {
        return Err(Refusal::from(Fault::AboveLimits));
    }
    // No heap: a place for each mark that a file may have.
    let mut ticks = [0u32; DayFile::MAX_MARKS];
    decide_marks(Marks { bytes: marks }, &mut ticks, Wanted::All)
}
