// The fields of a line, each with the byte after it: a space, or the newline that ends the line.
ghost use Rattle.std.specs.Prelude.{◌≡◌, [], ◌∷◌};
ghost use Rattle.text.specs.Decimal.{decimal, signed_decimal};
ghost use Rattle.text.specs.Table.{digit_pairs};
ghost use Rattle.text.specs.Writing.{Writes};
ghost use Rattle.products.specs.Products.{currency_of};
ghost use Rattle.report.specs.Lines.{space, newline, ended, letters_of};

use products::{Code, Currency, currency_of};
use text::{digit_pairs, write_byte, write_decimal, write_signed, write_text};

// The figures that numbers are written with. They are made once for a sheet.
#[derive(Drop)]
pub(crate) struct Figures {
    pairs: [u8; 200],
    ghost made: { pairs ≡ digit_pairs },
}

impl Figures {
    pub(crate) fn new() -> Figures {
        Figures {
            pairs: digit_pairs(),
        }
    }

    pub(crate) fn write_number(&self, n: u64, end: u8, out: &mut [u8]) -> usize
        ensures { Writes (ended (decimal n) end) result out.old out.new }
    {
        let k = write_decimal(&self.pairs, n, out);
        k + write_byte(end, &mut out[k..])
    }

    pub(crate) fn write_cents(&self, n: i64, end: u8, out: &mut [u8]) -> usize
        ensures { Writes (ended (signed_decimal n) end) result out.old out.new }
    {
        let k = write_signed(&self.pairs, n, out);
        k + write_byte(end, &mut out[k..])
    }
}

pub(crate) fn write_code(code: Code, out: &mut [u8]) -> usize
    ensures { Writes (code.0 ∷ code.1 ∷ space ∷ []) result out.old out.new }
{
    write_text(&[code.0, code.1, b' '], out)
}

// Writes the currency of a code, and the line's end.
pub(crate) fn write_currency(code: Code, out: &mut [u8]) -> usize
    ensures { Writes (ended (letters_of (currency_of code)) newline) result out.old out.new }
{
    match currency_of(code) {
        Currency::Aud => write_text(b"AUD\n", out),
        Currency::Nzd => write_text(b"NZD\n", out),
    }
}
