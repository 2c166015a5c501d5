// Which earlier record has the same key. A list of records is lent as bytes; the key of a record is the number that its first four or
// eight bytes make.
#![tactic(auto)]

mod first;
mod keys;
mod lists;
mod pairwise;
mod places;
mod seeds;
mod sift;
mod walks;

pub use first::first_repeated;
pub use keys::{Key, MOST};
pub use walks::earlier;
