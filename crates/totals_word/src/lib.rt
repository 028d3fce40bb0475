// The word `totals`: what captures come to, as a page of numbers.
#![tactic(auto, using(crate::proofs::Laws::laws, crate::proofs::words_page::Laws::named_laws, crate::proofs::words_page::Laws::share_laws))]

pub mod day;
pub mod totals_file;
pub mod words_page;
