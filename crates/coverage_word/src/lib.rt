// The word `coverage`: what captures have tried of a frame text.
#![tactic(auto, using(crate::proofs::Laws::laws, crate::proofs::tried::Laws::fills_laws, crate::proofs::tried::Laws::names_laws))]

pub mod coverage_file;
pub mod lines_page;
pub mod missing_page;
pub mod tried;
