// The lines of the positions.
ghost use Rattle.std.specs.Prelude.{◌*◌, ◌≤◌, length};
ghost use Rattle.text.specs.Writing.{Writes, texts};
ghost use Rattle.dayfile.specs.Limits.{file_limits};
ghost use Rattle.dayfile.specs.Records.{marks_in, positions_in};
ghost use Rattle.numbers.specs.Integers.{entry_of};
ghost use Rattle.report.specs.Lines.{line_at};
ghost use Rattle.report.specs.Writers.{Words, line_with, Named};

use crate::fields::Figures;
use crate::words::{WORDS_SIZE, WordsAt, write_rest, write_words};
use dayfile::{DayFile, Position, position_at};

// Writes a position's line, with the words of its mark and its amount.
fn write_line(figures: &Figures, words: &[u8], p: Position, amount: i64, out: &mut [u8]) -> usize
    requires { Words words.now (16 * p.mark) }
    ensures { Writes (line_with words.now (16 * p.mark) p.account amount) result out.old out.new }
{
    let w = WordsAt {
        words,
        at: WORDS_SIZE * p.mark,
    };
    let rest_at = figures.write_number(u64::from(p.account), b' ', out);
    rest_at + write_rest(figures, w, amount, &mut out[rest_at..])
}

// Writes the lines of the positions that have these amounts, in file order.
pub(crate) fn write_positions(
    figures: &Figures,
    marks: &[u8],
    positions: &[u8],
    amounts: &[i64],
    out: &mut [u8],
) -> usize
    requires { (length (marks_in marks.now) ≤ file_limits.marks)
        × Named (marks_in marks.now) (positions_in positions.now) (length amounts.now) }
    ensures { Writes
        (texts (line_at (marks_in marks.now) (positions_in positions.now) (entry_of amounts.now))
        (length amounts.now))
        result out.old out.new }
{
    // No heap: a place for the words of each mark that a file may have.
    let mut words = [0u8; WORDS_SIZE * DayFile::MAX_MARKS];
    write_words(figures, marks, &mut words);
    let mut at = 0;
    for i in 0..amounts.len() {
        let p = position_at(positions, i);
        at += write_line(figures, &words, p, amounts[i], &mut out[at..]);
    }
    at
}
