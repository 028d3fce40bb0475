// The word `tidy` of tap.
#![tactic(auto)]

pub mod tidy_file;
