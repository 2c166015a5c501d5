// What may be wrong with a file, a record or a call, and a refusal, which says what is wrong and at which record.
#![tactic(auto)]

mod fault;
mod refusal;

pub use fault::Fault;
pub use refusal::Refusal;
