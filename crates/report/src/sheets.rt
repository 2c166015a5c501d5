// The whole sheet.
ghost use Rattle.std.specs.Prelude.{◌≡◌, ◌++◌, length};
ghost use Rattle.text.specs.Writing.{Wrote, Writes};
ghost use Rattle.dayfile.specs.Limits.{file_limits};
ghost use Rattle.settlement.specs.Settling.{said, plan_of};
ghost use Rattle.report.specs.Sheet.{answer_text, positions_text, sheet_within, amounts_within};
ghost use Rattle.report.specs.Writers.{Paid, count_of};

use crate::answers::write_answer;
use crate::fields::Figures;
use crate::positions::write_positions;
use dayfile::{DayFile, open_file};
use faults::Refusal;
use settlement::{Settled, settle};

// No line of a position has more bytes.
const LINE_SIZE: usize = 47;

// No answer has more: two totals and the resent count.
const ANSWER_SIZE: usize = 90;

// No sheet has more.
pub const SHEET_SIZE: usize = LINE_SIZE * DayFile::MAX_POSITIONS + ANSWER_SIZE;

// How many positions were settled.
fn count(answer: Result<Settled, Refusal>) -> usize
    ensures { result ≡ count_of (said answer) }
{
    answer.map_or(0, |settled| settled.positions)
}

// Writes the lines of the n positions that were settled, with their amounts.
fn write_settled(figures: &Figures, file: &[u8], n: usize, amounts: &[i64], out: &mut [u8]) -> usize
    requires { Paid (plan_of file_limits file.now (length amounts.now)) n amounts.now }
    ensures { Writes (positions_text (plan_of file_limits file.now (length amounts.now)))
        result out.old out.new }
{
    match open_file(file) {
        Err(_) => 0,
        Ok(d) => write_positions(
            figures,
            d.marks_in(file),
            d.positions_in(file),
            &amounts[..n],
            out,
        ),
    }
}

// Writes the sheet of a file that was settled into these amounts, with this answer.
fn write_sheet(
    file: &[u8],
    answer: Result<Settled, Refusal>,
    amounts: &[i64],
    out: &mut [u8],
) -> usize
    requires { Paid (plan_of file_limits file.now (length amounts.now)) (count_of (said answer)) amounts.now }
    ensures { Writes
        (positions_text (plan_of file_limits file.now (length amounts.now)) ++ answer_text (said answer))
        result out.old out.new }
{
    let figures = Figures::new();
    let n = write_settled(&figures, file, count(answer), amounts, out);
    n + write_answer(&figures, answer, &mut out[n..])
}

// Settles a day file into the lent amounts, writes its sheet at the start of `out`, and answers the sheet's length. With room for less than
// SHEET_SIZE bytes nothing is written, and the answer is 0.
pub fn sheet(file: &[u8], amounts: &mut [i64], out: &mut [u8]) -> usize
    ensures sheet { Wrote (sheet_within (length out.old) file.now (length amounts.old))
        result out.old out.new }
    ensures amounts { amounts.new ≡ amounts_within (length out.old) file.now amounts.old }
{
    if out.len() < SHEET_SIZE {
        return 0;
    }
    let answer = settle(file, amounts);
    write_sheet(file, answer, amounts, out)
}
