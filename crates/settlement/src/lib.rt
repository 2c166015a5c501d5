// The settlement of a day file: final prices, amounts and totals.
#![tactic(auto)]

mod amounts;
mod cents;
mod groups;
mod one_mark;
mod prices;
mod settling;

pub use cents::{Aud, Cents, Nzd};
pub use one_mark::{MarkPrices, mark};
pub use settling::{Settled, settle};
