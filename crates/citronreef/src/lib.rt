// The functions that C and Rust call: numbers and slices in, one struct of numbers out. include/citronreef.h declares them. C has no Option
// and no Result: a flag or a number says which of the others hold; its numbers are u64, to which no `From` leads from usize.
#![tactic(auto)]

ghost use Rattle.std.specs.Prelude.{◌≡◌, length};
ghost use Rattle.faults.specs.Faults.{number_of};
ghost use Rattle.pricing.specs.Calls.{said, value_of, tick_value_of, bracket_of};
ghost use Rattle.report.specs.Sheet.{sheet_within, amounts_within};
ghost use Rattle.dayfile.specs.Limits.{file_limits};
ghost use Rattle.settlement.specs.Settling.{answer_of, amounts_after};
ghost use Rattle.settlement.specs.Settling.{said as said_of_day};
ghost use Rattle.settlement.specs.OneMark.{mark_answer_of};
ghost use Rattle.settlement.specs.OneMark.{said as said_of_mark};
ghost use Rattle.text.specs.Writing.{Wrote};
ghost use Rattle.citronreef.specs.Numbers.{quote_of, outcome_of, mark_outcome_of, finding_of, making_of};
ghost use Rattle.checks.specs.Finding.{found_of};
ghost use Rattle.making.specs.Making.{buffer_after};
ghost use Rattle.making.specs.Making.{said as said_of_maker, answer_of as maker_answer_of};

use faults::{Fault, Refusal};
use products::Code;
use settlement::{MarkPrices, Settled};

// The answer of a call on one contract: the number given, with a refused of 0; or the number of the check that refuses it.
#[repr(C)]
#[derive(Clone, Copy, Debug, PartialEq, Eq)]
pub struct Quote {
    pub refused: u64,
    pub number: u64,
}

// The answer to a day file. Where it is accepted refused and index are 0; where it is refused they say by which check and at
// which record, and the rest is 0.
#[repr(C)]
#[derive(Clone, Copy, Debug, PartialEq, Eq)]
pub struct Outcome {
    pub refused: u64,
    pub index: u64,
    pub positions: u64,
    pub aud: i64,
    pub nzd: i64,
    pub resent: u64,
}

// The number of a fault.
fn number(fault: Fault) -> u64
    ensures { result ≡ number_of fault }
{
    u64::from(u32::from(fault))
}

impl From<Result<u64, Fault>> for Quote {
    ghost from_gives = { λ p q. q ≡ quote_of (said p) };

    fn from(p: Result<u64, Fault>) -> Quote {
        match p {
            Ok(number) => Quote { refused: 0, number },
            Err(fault) => Quote {
                refused: number(fault),
                number: 0,
            },
        }
    }
}

impl From<Result<Settled, Refusal>> for Outcome {
    ghost from_gives = { λ s o. o ≡ outcome_of (said_of_day s) };

    fn from(s: Result<Settled, Refusal>) -> Outcome {
        match s {
            Ok(settled) => Outcome {
                refused: 0,
                index: 0,
                positions: settled.positions as u64,
                aud: settled.aud.cents(),
                nzd: settled.nzd.cents(),
                resent: settled.resent as u64,
            },
            Err(Refusal { fault, index }) => Outcome {
                refused: number(fault),
                index: index as u64,
                positions: 0,
                aud: 0,
                nzd: 0,
                resent: 0,
            },
        }
    }
}

// What is said of one mark of a day file. Where it is refused, refused and index say by which check and at which record, and the rest is 0.
#[repr(C)]
#[derive(Clone, Copy, Debug, PartialEq, Eq)]
pub struct MarkOutcome {
    pub refused: u64,
    pub index: u64,
    pub previous: u64,
    pub last: u64,
    pub corrected: u64,
    pub number: u64,
    pub change: i64,
}

impl From<Result<MarkPrices, Refusal>> for MarkOutcome {
    ghost from_gives = { λ p o. o ≡ mark_outcome_of (said_of_mark p) };

    fn from(p: Result<MarkPrices, Refusal>) -> MarkOutcome {
        match p {
            Ok(prices) => MarkOutcome {
                refused: 0,
                index: 0,
                previous: u64::from(prices.previous),
                last: u64::from(prices.last),
                corrected: u64::from(prices.corrected_by.is_some()),
                number: prices.corrected_by.map_or(0, u64::from),
                change: prices.change,
            },
            Err(Refusal { fault, index }) => MarkOutcome {
                refused: number(fault),
                index: index as u64,
                previous: 0,
                last: 0,
                corrected: 0,
                number: 0,
                change: 0,
            },
        }
    }
}

// The record where the condition of one check holds first. Where none is found, both are 0.
#[repr(C)]
#[derive(Clone, Copy, Debug, PartialEq, Eq)]
pub struct Finding {
    pub found: u64,
    pub index: u64,
}

impl From<Option<usize>> for Finding {
    ghost from_gives = { λ f o. o ≡ finding_of f };

    fn from(f: Option<usize>) -> Finding {
        match f {
            Some(i) => Finding {
                found: 1,
                index: i as u64,
            },
            None => Finding { found: 0, index: 0 },
        }
    }
}

// The answer of the maker: the file's length, with a refused and an index of 0. Where it is refused, refused and index say by which
// check and at which record, and the length is 0.
#[repr(C)]
#[derive(Clone, Copy, Debug, PartialEq, Eq)]
pub struct Making {
    pub refused: u64,
    pub index: u64,
    pub length: u64,
}

impl From<Result<usize, Refusal>> for Making {
    ghost from_gives = { λ m o. o ≡ making_of (said_of_maker m) };

    fn from(m: Result<usize, Refusal>) -> Making {
        match m {
            Ok(length) => Making {
                refused: 0,
                index: 0,
                length: length as u64,
            },
            Err(Refusal { fault, index }) => Making {
                refused: number(fault),
                index: index as u64,
                length: 0,
            },
        }
    }
}

// The value of one contract in cents. The code is its two letters.
#[unsafe(no_mangle)]
pub extern "C" fn citronreef_value(first: u8, second: u8, price: u32) -> Quote
    ensures { result ≡ quote_of (value_of (first, second) price) }
{
    Quote::from(pricing::value(Code(first, second), price))
}

// The value one tick higher, minus the value.
#[unsafe(no_mangle)]
pub extern "C" fn citronreef_tick_value(first: u8, second: u8, price: u32) -> Quote
    ensures { result ≡ quote_of (tick_value_of (first, second) price) }
{
    Quote::from(pricing::tick_value(Code(first, second), price))
}

// A bond's bracket, in units of 10^-8.
#[unsafe(no_mangle)]
pub extern "C" fn citronreef_bracket(first: u8, second: u8, price: u32) -> Quote
    ensures { result ≡ quote_of (bracket_of (first, second) price) }
{
    Quote::from(pricing::bracket(Code(first, second), price))
}

// The settlement of a day file. The amounts of an accepted file stand in the first places of the slice.
#[unsafe(no_mangle)]
pub extern "C" fn citronreef_settle(file: &[u8], amounts: &mut [i64]) -> Outcome
    ensures answer { result ≡ outcome_of (answer_of file_limits file.now (length amounts.old)) }
    ensures written { amounts.new ≡ amounts_after file_limits file.now amounts.old }
{
    Outcome::from(settlement::settle(file, amounts))
}

// The prices of one mark of a day file, the correction that decides, and the change in value of one contract.
#[unsafe(no_mangle)]
pub extern "C" fn citronreef_mark(file: &[u8], mark: usize) -> MarkOutcome
    ensures { result ≡ mark_outcome_of (mark_answer_of file_limits file.now mark) }
{
    MarkOutcome::from(settlement::mark(file, mark))
}

// The first record of a day file where the condition of one of checks 1 to 13 and 16 holds, whatever the others say, as far as a
// file is looked at (`checks::find`).
#[unsafe(no_mangle)]
pub extern "C" fn citronreef_find(file: &[u8], check: u32) -> Finding
    ensures { result ≡ finding_of (found_of file_limits file.now check) }
{
    Finding::from(checks::find(file, check))
}

// Settles a day file into the lent amounts, writes its sheet at the start of `out`, and answers the sheet's length. With room for
// less than report::SHEET_SIZE bytes nothing is written, and the answer is 0.
#[unsafe(no_mangle)]
pub extern "C" fn citronreef_sheet(file: &[u8], amounts: &mut [i64], out: &mut [u8]) -> usize
    ensures sheet { Wrote (sheet_within (length out.old) file.now (length amounts.old))
        result out.old out.new }
    ensures amounts { amounts.new ≡ amounts_within (length out.old) file.now amounts.old }
{
    report::sheet(file, amounts, out)
}

// Makes the day file of three lists, which are lent as the bytes of their records. The file stands at the start of `out`, and the other
// bytes stay; a refusal writes nothing.
#[unsafe(no_mangle)]
pub extern "C" fn citronreef_make(
    marks: &[u8],
    corrections: &[u8],
    positions: &[u8],
    out: &mut [u8],
) -> Making
    ensures answer { result ≡ making_of
        (maker_answer_of file_limits marks.now corrections.now positions.now (length out.old)) }
    ensures written { out.new
        ≡ buffer_after file_limits marks.now corrections.now positions.now out.old }
{
    Making::from(making::make(marks, corrections, positions, out))
}
