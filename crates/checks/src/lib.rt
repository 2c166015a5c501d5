// The checks that a day file must pass to be settled: a part for each section, and all of them over a whole file.
#![tactic(auto)]

mod clashes;
mod corrections;
mod finding;
mod judging;
mod lists;
mod marks;
mod positions;
mod searches;

pub use corrections::{CorrectionsJudged, check_corrections};
pub use finding::find;
pub use judging::{PassedFile, check_records, judge, too_many};
pub use lists::Marks;
pub use marks::check_marks;
pub use positions::check_positions;
