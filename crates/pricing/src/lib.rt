// One ASX 24 rate futures contract: its value in cents, its tick value and a bond's bracket.
#![tactic(auto)]

mod contract;
mod ladder;
mod listed;
mod prices;
mod rounding;
mod values;
mod valuing;

pub use contract::{bracket, tick_value, value};
pub use valuing::{LANES, value_or_zero, values_or_zero};
