// Settles the stored day files of data/, and prints the answer to each under the name of its file.
// tests/cases.py wrote the files and works out the same text by itself.
#![tactic(auto)]

mod amounts;

use amounts::{UNTOUCHED, digest, untouched};
use faults::Refusal;
use settlement::Settled;
use std::io::Read;
use std::rt::Files;
use std::{fs, io};

// More places than a file can have positions.
const PLACES: usize = 4_100;

// No day file has more bytes. Of a longer file the rest is not read.
const FILE_SIZE: u64 = 65_536;

// The line's rest after its name. It says so where a place was written that holds no amount of the file.
fn print_answer(
    rt: &impl Print,
    answer: Result<Settled, Refusal>,
    amounts: &[i64],
) -> io::Result<()> {
    match answer {
        Ok(
            Settled {
                positions,
                aud,
                nzd,
                resent,
            },
        ) => {
            let (aud, nzd) = (aud.cents(), nzd.cents());
            let digest = digest(amounts, positions);
            print!(rt; " {positions} {aud} {nzd} {resent} {digest}")?;
            print_touched(rt, amounts, positions)
        }
        Err(Refusal { fault, index }) => {
            print!(rt; " refused {} at {index}", u32::from(fault))?;
            print_touched(rt, amounts, 0)
        }
    }
}

fn print_touched(rt: &impl Print, amounts: &[i64], n: usize) -> io::Result<()> {
    if untouched(amounts, n) {
        return Ok(());
    }
    print!(rt; " and wrote elsewhere")
}

// Settles a file into the first places of a slice.
fn settle_into(rt: &impl Print, file: &[u8], amounts: &mut [i64], places: usize) -> io::Result<()> {
    let places = places.min(amounts.len());
    let answer = settlement::settle(file, &mut amounts[..places]);
    print_answer(rt, answer, amounts)
}

// Settles the file of that name, with so many places for amounts.
fn case_with<R: Files + Print + Alloc>(rt: &R, name: &str, places: usize) -> io::Result<()> {
    print!(rt; "{name}:")?;
    let Ok(source) = fs::open(rt, name) else {
        return println!(rt; " no such file");
    };
    let mut file = Vec::new(rt.alloc());
    source.take(FILE_SIZE).read_to_end(&mut file)?;
    let mut amounts = [UNTOUCHED; PLACES];
    settle_into(rt, &file, &mut amounts, places)?;
    println!(rt)
}

// Settles the files of those names.
fn each_case<R: Files + Print + Alloc>(rt: &R, names: &[&str]) -> io::Result<()> {
    for name in names {
        case_with(rt, name, PLACES)?;
    }
    Ok(())
}

// Checks 1 to 3: length, counts, offsets.
fn layout<R: Files + Print + Alloc>(rt: &R) -> io::Result<()> {
    each_case(
        rt,
        &[
            "empty_file",
            "one_byte_short_of_a_header",
            "short_and_above_limits",
            "header_alone",
        ],
    )?;
    case_with(rt, "header_alone_with_no_places", 0)?;
    each_case(
        rt,
        &[
            "marks_at_limit",
            "marks_above_limit",
            "corrections_at_limit",
            "corrections_above_limit",
            "positions_at_limit",
            "positions_above_limit",
            "largest_counts",
            "counts_that_would_wrap",
            "marks_offset_high",
            "corrections_offset_low",
            "positions_offset_largest",
            "offsets_of_a_gap",
            "one_byte_short",
            "one_byte_long",
            "one_position_less_counted",
            "count_before_offset",
        ],
    )
}

// Checks 4 to 8.
fn marks<R: Files + Print + Alloc>(rt: &R) -> io::Result<()> {
    each_case(
        rt,
        &[
            "unlisted_code",
            "lower_case_code",
            "month_0",
            "month_13",
            "month_of_no_quarter",
            "month_of_a_cash_rate",
            "year_99",
            "year_100",
            "price_0_to_limit",
            "previous_price_above_limit",
            "today_price_above_limit",
            "largest_price",
            "off_tick_previous_price",
            "off_tick_today_price",
            "tick_of_50",
            "repeated_mark",
            "two_repeated_marks",
            "marks_that_agree_in_two_fields",
        ],
    )
}

// Checks 9 to 11.
fn corrections<R: Files + Print + Alloc>(rt: &R) -> io::Result<()> {
    each_case(
        rt,
        &[
            "correction_names_last_mark",
            "correction_names_no_mark",
            "correction_names_largest_mark",
            "correction_above_limit",
            "off_tick_correction",
            "tick_of_the_named_mark",
            "off_tick_correction_overridden",
            "same_number_other_price",
            "same_number_other_mark",
            "clash_after_a_copy",
            "first_of_two_clashes",
            "higher_number_stands_first",
            "numbers_are_unsigned",
            "correction_number_0",
            "no_marks_with_corrections",
        ],
    )
}

// Checks 12, 13, 16 and 14.
fn positions<R: Files + Print + Alloc>(rt: &R) -> io::Result<()> {
    each_case(
        rt,
        &[
            "no_marks_with_positions",
            "position_names_no_mark",
            "lots_0",
            "most_lots_long",
            "most_lots_short",
            "one_lot_too_many_long",
            "one_lot_too_many_short",
            "smallest_i32_lots",
            "two_accounts_in_a_mark",
            "one_account_in_two_marks",
            "account_and_mark_exchanged",
            "accounts_apart_in_the_highest_bit",
            "one_account_twice_in_a_mark",
            "one_account_twice_with_other_lots",
            "one_account_three_times_in_a_mark",
            "first_of_two_repeated_positions",
            "repeated_position_far_from_its_first",
            "last_of_all_positions_repeated",
        ],
    )?;
    case_with(rt, "as_many_places_as_positions", 2)?;
    case_with(rt, "one_place_too_few", 1)
}

// Two faults: the check that stands first in the order decides.
fn order<R: Files + Print + Alloc>(rt: &R) -> io::Result<()> {
    each_case(
        rt,
        &[
            "code_before_month",
            "year_before_limit",
            "limit_before_tick",
            "limit_before_tick_in_one_price",
            "tick_before_repeated_mark",
            "repeated_mark_before_correction",
            "no_mark_before_correction_price",
            "correction_price_before_clash",
            "clash_before_position_mark",
            "position_mark_before_lots",
            "position_mark_before_repeated_position",
            "lots_before_repeated_position",
        ],
    )?;
    case_with(rt, "lots_before_places", 0)?;
    case_with(rt, "repeated_position_before_places", 1)?;
    case_with(rt, "offset_before_code", PLACES)
}

// The case of document 01, every product, resent corrections, a full file.
fn accepted<R: Files + Print + Alloc>(rt: &R) -> io::Result<()> {
    each_case(
        rt,
        &[
            "case_of_document_01",
            "marks_alone",
            "every_product",
            "every_product_at_yield_0",
            "equal_prices",
            "corrected_to_previous_price",
            "first_list",
            "copies_before",
            "copies_between",
            "copies_after",
            "copies_everywhere",
            "copies_up_to_the_limit",
            "full_size",
        ],
    )
}

fn main(rt: HostRuntime) -> io::Result<()> {
    layout(&rt)?;
    marks(&rt)?;
    corrections(&rt)?;
    positions(&rt)?;
    order(&rt)?;
    accepted(&rt)
}
