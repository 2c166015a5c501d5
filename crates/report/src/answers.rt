// The lines of an answer: the totals and the resent count, or the refusal.
ghost use Rattle.std.specs.Prelude.{◌≡◌, ◌++◌};
ghost use Rattle.text.specs.Decimal.{decimal, signed_decimal};
ghost use Rattle.text.specs.Writing.{Writes};
ghost use Rattle.faults.specs.Faults.{number_of};
ghost use Rattle.settlement.specs.Settling.{said};
ghost use Rattle.report.specs.Lines.{AUD, NZD, newline, ended, total_line, refusal_line};
ghost use Rattle.report.specs.Sheet.{answer_text, totals_text};

use crate::fields::Figures;
use faults::Refusal;
use settlement::{Aud, Cents, Nzd, Settled};
use text::write_text;

// Writes the words of a total, and its cents.
fn write_total(figures: &Figures, words: &[u8], cents: i64, out: &mut [u8]) -> usize
    ensures { Writes (words.now ++ ended (signed_decimal cents) newline) result out.old out.new }
{
    let cents_at = write_text(words, out);
    cents_at + figures.write_cents(cents, b'\n', &mut out[cents_at..])
}

// Writes words, a number and the byte after it.
fn write_labelled(figures: &Figures, words: &[u8], n: u64, end: u8, out: &mut [u8]) -> usize
    ensures { Writes (words.now ++ ended (decimal n) end) result out.old out.new }
{
    let number_at = write_text(words, out);
    number_at + figures.write_number(n, end, &mut out[number_at..])
}

// Writes the two totals.
fn write_totals(figures: &Figures, aud: Cents<Aud>, nzd: Cents<Nzd>, out: &mut [u8]) -> usize
    ensures { Writes (total_line AUD aud.0 ++ total_line NZD nzd.0) result out.old out.new }
{
    let nzd_at = write_total(figures, b"total AUD ", aud.cents(), out);
    nzd_at + write_total(figures, b"total NZD ", nzd.cents(), &mut out[nzd_at..])
}

// Writes the totals and the resent count.
fn write_settlement(
    figures: &Figures,
    aud: Cents<Aud>,
    nzd: Cents<Nzd>,
    resent: usize,
    out: &mut [u8],
) -> usize
    ensures { Writes (totals_text aud.0 nzd.0 resent) result out.old out.new }
{
    let resent_at = write_totals(figures, aud, nzd, out);
    resent_at
        + write_labelled(
            figures,
            b"resent ",
            resent as u64,
            b'\n',
            &mut out[resent_at..],
        )
}

// Writes a refusal: the check's number and the record's index.
fn write_refusal(figures: &Figures, refusal: Refusal, out: &mut [u8]) -> usize
    ensures { Writes (refusal_line (number_of refusal.fault) refusal.index) result out.old out.new }
{
    let number = u64::from(u32::from(refusal.fault));
    let index_at = write_labelled(figures, b"refused ", number, b' ', out);
    index_at
        + write_labelled(
            figures,
            b"at ",
            refusal.index as u64,
            b'\n',
            &mut out[index_at..],
        )
}

// Writes the lines of an answer.
pub(crate) fn write_answer(
    figures: &Figures,
    answer: Result<Settled, Refusal>,
    out: &mut [u8],
) -> usize
    ensures { Writes (answer_text (said answer)) result out.old out.new }
{
    match answer {
        Ok(
            Settled {
                aud,
                nzd,
                resent,
                ..
            },
        ) => write_settlement(figures, aud, nzd, resent, out),
        Err(refusal) => write_refusal(figures, refusal, out),
    }
}
