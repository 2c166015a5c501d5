// The sheet of a day file, as text in a lent buffer.
#![tactic(auto)]

mod answers;
mod fields;
mod positions;
mod sheets;
mod words;

pub use sheets::{SHEET_SIZE, sheet};
