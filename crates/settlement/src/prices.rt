// The final prices of the marks.
ghost use Rattle.std.specs.Prelude.{length};
ghost use Rattle.numbers.specs.Folds.{Filled};
ghost use Rattle.dayfile.specs.Records.{marks_in, corrections_in};
ghost use Rattle.settlement.specs.Prices.{final_of};
ghost use Rattle.settlement.specs.SettlingSteps.{today_of};

use checks::Marks;
use dayfile::{DayFile, correction_at, correction_count, mark_at, mark_count};

// Writes today's price of each mark. (A loop like that of `currencies`: one function for both would take the entry's type, its first value and
// a closure, and be no plainer. Prices and changes are lent and not returned: a returned array is copied, and the smallest files take twice
// as long.)
fn todays(marks: Marks<'_>, price: &mut [u32; DayFile::MAX_MARKS])
    ensures { Filled 0 (today_of (marks_in marks.entry.bytes.now)) (length (marks_in marks.entry.bytes.now)) price.new }
{
    for m in 0..mark_count(marks.bytes) {
        price[m] = mark_at(marks.bytes, m).today;
    }
}

// Writes the final price of each mark, in one pass over the corrections. A mark starts with the number 0, which any correction replaces.
pub(crate) fn finals(marks: Marks<'_>, corrections: &[u8], price: &mut [u32; DayFile::MAX_MARKS])
    ensures { Filled 0 (final_of (marks_in marks.entry.bytes.now) (corrections_in corrections.now))
        (length (marks_in marks.entry.bytes.now)) price.new }
{
    let n = mark_count(marks.bytes);
    todays(marks, price);
    // Beside the prices and no pairs of both, since the prices are the answer.
    let mut number = [0u32; DayFile::MAX_MARKS];
    for k in 0..correction_count(corrections) {
        let c = correction_at(corrections, k);
        let m = c.mark;
        if m < n && number[m] <= c.number {
            price[m] = c.price;
            number[m] = c.number;
        }
    }
}
