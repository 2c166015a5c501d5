// The day file: its layout and its records.
#![tactic(auto)]

mod bytes;
mod file;
mod records;

pub use file::{DayFile, counted, decide_header, open_file};
pub use records::{
    Correction, Mark, Position, RawPosition, correction_at, correction_count, mark_at, mark_count,
    position_at, position_count, raw_position_at,
};
