// What is said of one mark of a day file.
ghost use Rattle.std.specs.Prelude.{◌≡◌, length};
ghost use Rattle.dayfile.specs.Limits.{file_limits};
ghost use Rattle.dayfile.specs.Records.{marks_in, corrections_in};
ghost use Rattle.settlement.specs.Prices.{after_of, highest_of, or_today};
ghost use Rattle.settlement.specs.OneMark.{said, highest_in, mark_answer_in, mark_answer_of};

use crate::groups::change_between;
use checks::judge;
use dayfile::{Correction, correction_at, correction_count, mark_at, mark_count};
use faults::{Fault, Refusal};

// A mark's previous and final price, the number of the correction that decides the final one if any does, and the change in value of one
// contract, in cents.
#[derive(Clone, Copy, Debug, PartialEq, Eq)]
pub struct MarkPrices {
    pub previous: u32,
    pub last: u32,
    pub corrected_by: Option<u32>,
    pub change: i64,
}

// The highest-numbered correction of a mark, after one correction more, which may be of another mark.
fn after(d: Option<Correction>, m: usize, c: Correction) -> Option<Correction>
    ensures { highest_in result ≡ after_of m (highest_in d) c }
{
    match d {
        _ if c.mark != m => d,
        Some(decides) if c.number < decides.number => d,
        _ => Some(c),
    }
}

// The highest-numbered correction of a mark, if there is one.
fn highest(corrections: &[u8], m: usize) -> Option<Correction>
    ensures { highest_in result ≡ highest_of (corrections_in corrections.now)
        m (length (corrections_in corrections.now)) }
{
    let mut d = None;
    for k in 0..correction_count(corrections) {
        d = after(d, m, correction_at(corrections, k));
    }
    d
}

// The price that a correction decides, or today's.
fn last_price(d: Option<Correction>, today: u32) -> u32
    ensures { result ≡ or_today (highest_in d) today }
{
    d.map_or(today, |c| c.price)
}

// The prices of a mark of a list; 12 where the list has none with this index.
fn prices(marks: &[u8], corrections: &[u8], m: usize) -> Result<MarkPrices, Refusal>
    ensures { said result ≡ mark_answer_in (marks_in marks.now) (corrections_in corrections.now) m }
{
    if mark_count(marks) <= m {
        return Err(Refusal {
            fault: Fault::PositionMark,
            index: m,
        });
    }
    let mark = mark_at(marks, m);
    let decides = highest(corrections, m);
    let last = last_price(decides, mark.today);
    Ok(MarkPrices {
        previous: mark.previous,
        last,
        corrected_by: decides.map(|c| c.number),
        change: change_between(mark.code, last, mark.previous),
    })
}

// What is said of the mark with index m of a day file that passes its checks: its prices, the correction that decides, and the change in
// value of one contract. A file that does not pass is refused as `settle` refuses it; a mark that the file does not have is 12, at m.
pub fn mark(file: &[u8], m: usize) -> Result<MarkPrices, Refusal>
    ensures { said result ≡ mark_answer_of file_limits file.now m }
{
    let counts = judge(file)?.counts;
    prices(counts.marks_in(file), counts.corrections_in(file), m)
}
