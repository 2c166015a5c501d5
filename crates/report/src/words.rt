// The words of the marks, which the lines of their positions share: written once, and copied into each line. Those of a mark take 16 bytes:
// code, month and year in the first 11; the currency and the line's end; and the length of the first three.
ghost use Rattle.std.specs.Prelude.{◌≡◌, ◌++◌, length};
ghost use Rattle.text.specs.Decimal.{decimal};
ghost use Rattle.text.specs.Writing.{Writes, texts};
ghost use Rattle.dayfile.specs.Records.{marks_in};
ghost use Rattle.report.specs.Lines.{space, ended};
ghost use Rattle.report.specs.Writers.{contract_fields, words_at, Words, money_in, rest_in};

use crate::fields::{Figures, write_code, write_currency};
use dayfile::{Mark, mark_at, mark_count};
use text::write_text;

pub(crate) const WORDS_SIZE: usize = 16;

// Writes a month and a year, each with a space after it.
fn write_date(figures: &Figures, month: u8, year: u8, out: &mut [u8]) -> usize
    ensures { Writes (ended (decimal month) space ++ ended (decimal year) space) result out.old out.new }
{
    let year_at = figures.write_number(u64::from(month), b' ', out);
    year_at + figures.write_number(u64::from(year), b' ', &mut out[year_at..])
}

// Writes a mark's code, month and year, each with a space after it.
fn write_contract(figures: &Figures, m: Mark, out: &mut [u8]) -> usize
    ensures { Writes (contract_fields m) result out.old out.new }
{
    let date_at = write_code(m.code, out);
    date_at + write_date(figures, m.month, m.year, &mut out[date_at..])
}

// The words of the mark with index i.
fn words_of(figures: &Figures, marks: &[u8], i: usize) -> [u8; WORDS_SIZE]
    ensures { result ≡ words_at (marks_in marks.now) i }
{
    let m = mark_at(marks, i);
    let mut words = [0u8; WORDS_SIZE];
    let k = write_contract(figures, m, &mut words);
    write_currency(m.code, &mut words[11..]);
    words[15] = k as u8;
    words
}

// Writes the words of the marks, one after the other.
pub(crate) fn write_words(figures: &Figures, marks: &[u8], out: &mut [u8]) -> usize
    ensures { Writes (texts (words_at (marks_in marks.now)) (length (marks_in marks.now)))
        result out.old out.new }
{
    let mut at = 0;
    for i in 0..mark_count(marks) {
        let words = words_of(figures, marks, i);
        at += write_text(&words, &mut out[at..]);
    }
    at
}

// A mark's words, at a place of the words of all marks.
#[derive(Clone, Copy)]
pub(crate) struct WordsAt<'a> {
    pub(crate) words: &'a [u8],
    pub(crate) at: usize,
    ghost whole: { Words words.now at },
}

// Writes an amount, and the currency and the line's end of a mark's words.
fn write_money(figures: &Figures, w: WordsAt<'_>, amount: i64, out: &mut [u8]) -> usize
    ensures { Writes (money_in w.entry.words.now w.entry.at amount) result out.old out.new }
{
    let from = w.at + 11;
    let to = from + 4;
    let currency_at = figures.write_cents(amount, b' ', out);
    currency_at + write_text(&w.words[from..to], &mut out[currency_at..])
}

// Writes what stands after the account: the fields of a mark's words, and the amount with its currency. Twelve bytes are copied whatever
// the fields' length, and the amount overwrites what is not theirs.
pub(crate) fn write_rest(figures: &Figures, w: WordsAt<'_>, amount: i64, out: &mut [u8]) -> usize
    ensures { Writes (rest_in w.entry.words.now w.entry.at amount) result out.old out.new }
{
    if out.len() < 12 {
        return 0;
    }
    let end = w.at + 12;
    write_text(&w.words[w.at..end], out);
    let k = usize::from(w.words[w.at + 15]);
    k + write_money(figures, w, amount, &mut out[k..])
}
