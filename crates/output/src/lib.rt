// What tap prints besides pages: sentences, colour, and how a run ends.
#![tactic(auto)]

pub mod errors;
pub mod outcome;
pub mod paint;
pub mod prose;
pub mod refusals;
