// The maker of a day file: from lists of marks, corrections and positions to the file that has them.
#![tactic(auto)]

mod maker;
mod plans;
mod writing;

pub use maker::make;
