// Text written into a lent buffer, from its start on. Each function answers how many bytes it wrote; where the buffer has no room for the
// whole text, it writes nothing and answers 0.
#![tactic(auto)]

mod copying;
mod decimal;

pub use copying::{write_byte, write_text};
pub use decimal::{digit_pairs, magnitude, write_decimal, write_signed};
