// What carries no word of the trade: signed numbers, and which numbered conditions are looked at.
// The laws are in proofs/.
#![tactic(auto)]

mod wanted;
mod words;

pub use wanted::Wanted;
pub use words::as_signed;
